// One line of an old ledger: read as a line of SESSIONS sessions, with empty ones behind its own, judged, and written
// with the sessions of the new one.
#![tactic(auto)]

ghost use Rattle.std.specs.Prelude.{◌≡◌, ◌++◌, ◌+◌, ◌-◌, ◌*◌, ◌≤◌, ◌<◌, length, drop, replicate};
ghost use Rattle.model.specs.Policy.{Meaning};
ghost use Rattle.model.specs.Line.{SESSIONS, line_size as line_size_of, read_sessions, read_line, empty_session, sound as sound_by};
ghost use Rattle.model.specs.Kept.{Antitone};
ghost use Rattle.model.specs.Moves.{resized, padded, line_fault as line_fault_of};
ghost use Rattle.octets.specs.Splice.{splice};
ghost use Rattle.exclusion_rows.specs.Table.{exclusions_of};
ghost use Rattle.reasons.specs.Numbers.{fault_of};
ghost use Rattle.ledger.specs.Held.{Held};

use ledger::bytes::session_at;
use ledger::lines::LineBytes;
use ledger::plainly::plainly_sound;
use ledger::sound::sound;
use model::{Line, SESSIONS, Session};
use policy_tables::PolicyTables;
use reasons::Reason;
use sets::counted::Counted;

// The bytes of a line with so many sessions: of SESSIONS as many as the constant `ledger::bytes::LINE` says.
pub fn line_size(sessions: u8) -> usize
    ensures { result ≡ line_size_of sessions }
{
    16 + 16 * (sessions as usize)
}

// ---- reads

// The sessions of a line, and empty ones behind them. A line of SESSIONS has none of these, so that
// `ledger::bytes::line_of` reads it with no count.
fn sessions_in(line: &LineBytes) -> [Session; SESSIONS]
    ensures { result
        ≡ read_sessions line.now.sessions (drop 16 line.now.bytes.now) ++ replicate (SESSIONS - line.now.sessions) empty_session }
{
    let mut sessions = [Session {
        active: 0,
        history: 0,
    }; SESSIONS];
    // The sessions go by number: each has its bytes at an offset.
    for k in 0..line.sessions as usize {
        let next = session_at(line.bytes, 16 + 16 * k);
        sessions[k] = next;
    }
    sessions
}

// The line, with empty sessions behind its own.
fn line_in(line: &LineBytes) -> Line
    ensures { result ≡ padded (SESSIONS - line.now.sessions) (read_line line.now.sessions line.now.bytes.now) }
{
    let sessions = sessions_in(line);
    Line {
        opened: octets::get_u64(line.bytes, 0),
        history: octets::get_u64(line.bytes, 8),
        sessions,
    }
}

// The line, of a user who may activate the roles `own`, is sound: plainly, or as the line of SESSIONS that it is with
// empty ones behind it.
fn line_sound(line: &LineBytes, tables: &PolicyTables, own: u64) -> bool
    ensures { (m : Meaning) → Antitone m → Held tables.now.head.roles own (exclusions_of tables.now.exclusions) m
        → result ≡ sound_by line.now.sessions m (read_line line.now.sessions line.now.bytes.now) }
{
    if plainly_sound(
        line.bytes,
        line.sessions,
        tables.head.roles,
        own,
        &tables.exclusions,
    ) {
        return true;
    }
    let l = line_in(line);
    l.opened.below(line.sessions as u16) & sound(l, tables.head.roles, own, &tables.exclusions)
}

// Why a line cannot go to `to` sessions: it is not sound, or a session from `to` on is open.
pub fn line_fault(line: &LineBytes, to: u8, tables: &PolicyTables, own: u64) -> Result<(), Reason>
    ensures { (m : Meaning) → Antitone m → Held tables.now.head.roles own (exclusions_of tables.now.exclusions) m
        → fault_of result ≡ line_fault_of line.now.sessions to m line.now.bytes.now }
{
    let low = octets::get_u64(line.bytes, 0).below(to as u16);
    let formed = line_sound(line, tables, own);
    if !formed {
        return Err(Reason::Line);
    }
    if !low {
        return Err(Reason::UpperSessions);
    }
    Ok(())
}

// ---- writes

// Puts so many zeros into s at the offset.
fn put_zeros(s: &mut [u8], at: usize, count: usize)
    requires { at + count ≤ length s.old }
    ensures { s.new ≡ splice s.old at (replicate count 0) }
{
    s[at..at + count].fill(0);
}

// Copies all of the bytes into s at the offset. By index: of the library's copy the compiler makes memmove, which the
// archive may not need, and of this memcpy.
fn copy(s: &mut [u8], at: usize, bytes: &[u8])
    requires { at + length bytes.now ≤ length s.old }
    ensures { s.new ≡ splice s.old at bytes.now }
{
    for j in 0..bytes.len() {
        s[at + j] = bytes[j];
    }
}

// Copies all of the bytes into s at the offset. The 80 of a line of four sessions, which both moves copy, are named by
// their number: the compiler then has a few moves of many bytes in place of a loop.
fn put(s: &mut [u8], at: usize, bytes: &[u8])
    requires { at + length bytes.now ≤ length s.old }
    ensures { s.new ≡ splice s.old at bytes.now }
{
    if bytes.len() == 80 {
        copy(s, at, &bytes[0..80]);
        return;
    }
    copy(s, at, bytes);
}

// Writes the line at the user's place of a ledger with so many sessions a user: with zeros behind it, or cut. That the
// place is there is a clause: a `Ledger` lends its bytes to be read alone.
pub fn put_resized(ledger: &mut [u8], sessions: u8, user: usize, bytes: &[u8])
    requires { line_size_of sessions * user + line_size_of sessions ≤ length ledger.old }
    ensures { ledger.new ≡ splice ledger.old (line_size_of sessions * user) (resized sessions bytes.now) }
{
    let size = line_size(sessions);
    let at = size * user;
    let len = bytes.len();
    if len < size {
        put(ledger, at, bytes);
        put_zeros(ledger, at + len, size - len);
        return;
    }
    put(ledger, at, &bytes[0..size]);
}
