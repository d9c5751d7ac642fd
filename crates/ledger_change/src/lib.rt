// The changes that calls make to a line: a session opened, closed, or given other active roles. Each has one caller,
// and asks for more of the session or for nothing else, so that line and session are two parameters here.
#![tactic(auto)]

ghost use Rattle.std.specs.Prelude.{◌≡◌, true, ◌+◌, ◌<◌, ◌^◌};
ghost use Rattle.model.specs.Line.{SESSIONS, is_open as is_open_of, opening, closing, put_in};
ghost use Rattle.ledger_change.specs.Lowest.{IsLowestClosed};

use model::{Line, SESSIONS, Session};

// Session k is open.
pub fn is_open(l: Line, k: usize) -> bool
    requires { k < 64 }
    ensures { result ≡ is_open_of l k }
{
    sets::has_bit(l.opened, k)
}

// The set of session k alone.
fn bit(k: usize) -> u64
    requires { k < 64 }
    ensures { result ≡ 2 ^ k }
{
    1 << k
}

// The lowest closed session.
pub fn lowest_closed(l: Line) -> Option<usize>
    ensures { IsLowestClosed l result }
{
    // The number is a session, and the answer.
    for k in 0..SESSIONS {
        if !is_open(l, k) {
            return Some(k);
        }
    }
    None
}

// Session k opened.
pub fn opened(l: Line, k: usize) -> Line
    requires { (k < SESSIONS) × (l.opened < 2 ^ SESSIONS) }
    ensures { result ≡ opening k l }
{
    Line {
        opened: l.opened + bit(k),
        ..l
    }
}

// Session k closed: it has no role and no history any more, and the user's history stays.
pub fn closed(l: Line, k: usize) -> Line
    requires { (k < SESSIONS) × (is_open_of l k ≡ true) }
    ensures { result ≡ closing k l }
{
    let mut next = l;
    next.opened = l.opened - bit(k);
    next.sessions[k] = Session {
        active: 0,
        history: 0,
    };
    next
}

// The roles put in as the active ones of session k, in place of the old ones, and added to both histories.
pub fn put_in(l: Line, k: usize, roles: u64) -> Line
    requires { k < SESSIONS }
    ensures { result ≡ put_in k roles l }
{
    let mut next = l;
    let before = l.sessions[k];
    next.history = l.history | roles;
    next.sessions[k] = Session {
        active: roles,
        history: before.history | roles,
    };
    next
}
