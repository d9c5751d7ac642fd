// Whether a line is plainly sound, told from its bytes: its open bits, histories and sessions have their form, and of
// each exclusion fewer than n members are in the user's history. That is all that a usual line is judged by.
ghost use Rattle.std.specs.Prelude.{◌≡◌, true, ◌+◌, ◌*◌, ◌≤◌, length, drop};
ghost use Rattle.model.specs.declared.Line.{Line as LineOf};
ghost use Rattle.model.specs.Policy.{Meaning};
ghost use Rattle.model.specs.Line.{SESSIONS, line_size, read_sessions, read_line, sessions_sound, sound as sound_by};
ghost use Rattle.model.specs.Run.{line_at};
ghost use Rattle.exclusion_rows.specs.Table.{exclusions_of};
ghost use Rattle.ledger.specs.Held.{few_in as few_in_of, Held};

use crate::bytes::{LINE, line_bytes, line_of, session_at};
use crate::sound::{session_sound, sound};
use exclusion_rows::ExclusionTable;
use model::SESSIONS;
use sets::counted::Counted;

// Every session of the line's bytes is sound, by its open bits and the user's history.
fn sessions_sound_in(bytes: &[u8], sessions: u8, opened: u64, history: u64, authorized: u64) -> bool
    requires { (length bytes.now ≡ line_size sessions) × (sessions ≤ 64) }
    ensures { (m : Meaning) (l : LineOf) → m.authorized ≡ authorized → l.opened ≡ opened → l.history ≡ history
        → result ≡ sessions_sound m l 0 (read_sessions sessions (drop 16 bytes.now)) }
{
    // The sessions go by number: each has its bytes at an offset, and its open bit.
    for k in 0..sessions as usize {
        let s = session_at(bytes, 16 + 16 * k);
        if !session_sound(opened, history, k, s, authorized) {
            return false;
        }
    }
    true
}

// Of each exclusion fewer than n members are in the set.
fn few_in(set: u64, xs: &ExclusionTable) -> bool
    ensures { result ≡ few_in_of set (exclusions_of xs.now) }
{
    for x in xs.listed() {
        if !sets::fewer(x.members, set, x.n as u32) {
            return false;
        }
    }
    true
}

// The line of so many sessions, of a user who may activate the roles `own`, is plainly sound. A line of none, or of
// more than SESSIONS, is judged too: so it takes the bytes and the number, and no `LineBytes`.
pub fn plainly_sound(bytes: &[u8], sessions: u8, roles: u8, own: u64, xs: &ExclusionTable) -> bool
    requires { (length bytes.now ≡ line_size sessions) × (sessions ≤ 64) }
    ensures { result ≡ true → (m : Meaning) → Held roles own (exclusions_of xs.now) m
        → sound_by sessions m (read_line sessions bytes.now) ≡ true }
{
    let opened = octets::get_u64(bytes, 0);
    let history = octets::get_u64(bytes, 8);
    let formed = opened.below(sessions as u16) & history.below(roles as u16);
    if !formed {
        return false;
    }
    if !sessions_sound_in(bytes, sessions, opened, history, own) {
        return false;
    }
    few_in(history, xs)
}

// The user's line of the ledger is sound, where the user may activate the roles `own`: plainly, or by all that a line
// is judged by. By a `Ledger` the number of sessions is unknown where a line is judged, and a call that judges 64 lines
// takes 1.13 of the time: the user's place is a clause.
pub fn sound_at(ledger: &[u8], user: usize, roles: u8, own: u64, xs: &ExclusionTable) -> bool
    requires { line_size SESSIONS * user + line_size SESSIONS ≤ length ledger.now }
    ensures { (m : Meaning) → Held roles own (exclusions_of xs.now) m
        → result ≡ sound_by SESSIONS m (read_line SESSIONS (line_at (line_size SESSIONS) user ledger.now)) }
{
    let bytes = line_bytes(ledger, LINE, user);
    if plainly_sound(bytes, SESSIONS as u8, roles, own, xs) {
        return true;
    }
    let l = line_of(ledger, user);
    sound(l, roles, own, xs)
}
