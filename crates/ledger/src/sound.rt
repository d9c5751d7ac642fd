// Whether a line is sound: its open bits, histories and sessions have their form, and every exclusion is met.
ghost use Rattle.std.specs.Prelude.{◌≡◌, ◌≤◌, ◌<◌};
ghost use Rattle.model.specs.declared.Line.{Line as LineOf};
ghost use Rattle.model.specs.Policy.{Meaning, met};
ghost use Rattle.model.specs.Line.{SESSIONS, active_in as active_in_of, counted as counted_by, exclusions_met as exclusions_met_of, session_sound as session_sound_of, sessions_sound as sessions_sound_of, sound as sound_by};
ghost use Rattle.exclusion_rows.specs.Table.{exclusions_of};
ghost use Rattle.ledger.specs.Held.{met_at as met_at_of, named_in, named_by, Listed, Held};

use exclusion_rows::ExclusionTable;
use model::{Exclusion, Kind, Line, Role, SESSIONS, Session};
use sets::counted::Counted;

// ---- exclusions

// The roles active in any session.
pub fn active_in(sessions: [Session; SESSIONS]) -> u64
    ensures { result ≡ active_in_of sessions }
{
    let mut roles = 0u64;
    for s in sessions {
        roles |= s.active;
    }
    roles
}

// What a kind of exclusion counts at a session of the line.
pub fn counted(l: Line, s: Session, kind: Kind) -> u64
    ensures { result ≡ counted_by l s kind }
{
    let sessions = l.sessions;
    match kind {
        Kind::SsDmer => s.active,
        Kind::MsDmer => active_in(sessions),
        Kind::SsHmer => s.history,
        Kind::MsHmer => l.history,
    }
}

// The exclusion is met at the session. Where none is counted, as at closed sessions, none is a member.
fn met_at(l: Line, s: Session, x: Exclusion) -> bool
    ensures { result ≡ met (counted_by l s) x }
{
    let kind = x.kind;
    let roles = counted(l, s, kind);
    if roles == 0 {
        return 0 < x.n;
    }
    sets::fewer(x.members, roles, x.n as u32)
}

// The exclusion is met at every session, each tested.
fn met_at_each(l: Line, x: Exclusion) -> bool
    ensures { result ≡ met_at_of l x }
{
    for s in l.sessions {
        if !met_at(l, s, x) {
            return false;
        }
    }
    true
}

// The exclusion is met at every session. A kind over all of the user's sessions counts the same at each, so one test is
// enough.
fn exclusion_met(l: Line, x: Exclusion) -> bool
    ensures { result ≡ met_at_of l x }
{
    let s = l.sessions[0];
    let kind = x.kind;
    match kind {
        Kind::SsDmer | Kind::SsHmer => met_at_each(l, x),
        Kind::MsDmer | Kind::MsHmer => met_at(l, s, x),
    }
}

// The roles that the sessions name: active or in their history. It has a definition of its own, as `active_in` has, and
// a closure for what is joined would be as long as the loop.
fn named_in(sessions: [Session; SESSIONS]) -> u64
    ensures { result ≡ named_in sessions }
{
    let mut roles = 0u64;
    for s in sessions {
        roles |= s.active | s.history;
    }
    roles
}

// The exclusion is met at every session, by all roles that the line names: where fewer than n of those are members, no
// session has more.
fn met_by_all(l: Line, all: u64, x: Exclusion) -> bool
    requires { all ≡ named_by l }
    ensures { result ≡ met_at_of l x }
{
    if sets::fewer(x.members, all, x.n as u32) {
        return true;
    }
    exclusion_met(l, x)
}

// Every exclusion is met at every session.
pub fn exclusions_met(l: Line, xs: &ExclusionTable) -> bool
    ensures { (m : Meaning) → Listed (exclusions_of xs.now) m → result ≡ exclusions_met_of m l }
{
    let sessions = l.sessions;
    let all = l.history | named_in(sessions);
    for x in xs.listed() {
        if !met_by_all(l, all, *x) {
            return false;
        }
    }
    true
}

// ---- sessions

// Session k, of a line with these open bits and this history, is zero where it is closed, its active roles are in its
// history, that in the user's, and it has no role active that the user may not activate. An empty session is, open or
// closed.
pub fn session_sound(opened: u64, history: u64, k: usize, s: Session, authorized: u64) -> bool
    requires { k < 64 }
    ensures { (m : Meaning) (l : LineOf) → m.authorized ≡ authorized → l.opened ≡ opened → l.history ≡ history
        → result ≡ session_sound_of m l k s }
{
    let zero = (s.active == 0) & (s.history == 0);
    if zero {
        return true;
    }
    let formed = sets::has(opened, Role(k as u8));
    let inner = sets::within(s.active, s.history);
    let outer = sets::within(s.history, history);
    formed & inner & outer & sets::within(s.active, authorized)
}

// Every session is sound.
fn sessions_sound(l: Line, authorized: u64) -> bool
    ensures { (m : Meaning) → m.authorized ≡ authorized → result ≡ sessions_sound_of m l 0 l.sessions }
{
    for (k, s) in l.sessions.iter().enumerate() {
        if !session_sound(l.opened, l.history, k, *s, authorized) {
            return false;
        }
    }
    true
}

// ---- the line

// The line of a user who may activate the roles `own` is sound.
pub fn sound(l: Line, roles: u8, own: u64, xs: &ExclusionTable) -> bool
    ensures { (m : Meaning) → Held roles own (exclusions_of xs.now) m → result ≡ sound_by SESSIONS m l }
{
    let opened = l.opened.below(SESSIONS as u16);
    let history = l.history.below(roles as u16);
    let sessions = sessions_sound(l, own);
    opened & history & sessions & exclusions_met(l, xs)
}
