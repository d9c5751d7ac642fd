// A line's bytes: 8 of open sessions, 8 of the user's history, then for each session 8 of active roles and 8 of its
// history.
ghost use Rattle.std.specs.Prelude.{◌≡◌, ◌+◌, ◌*◌, ◌≤◌, length, drop};
ghost use Rattle.model.specs.Line.{SESSIONS, line_size, read_sessions, read_line, write_sessions, write_line};
ghost use Rattle.model.specs.Run.{line_at, with_line};
ghost use Rattle.octets.specs.Splice.{splice};
ghost use Rattle.ledger.specs.Places.{session_in, session_bytes};

use model::{Line, SESSIONS, Session};

// The bytes of a line.
pub const LINE: usize = 16 + 16 * SESSIONS;

// ---- reads

// The bytes of the user's line, of a ledger with lines of so many bytes.
pub fn line_bytes(ledger: &[u8], size: usize, user: usize) -> &[u8]
    requires { size * user + size ≤ length ledger.now }
    ensures { result.now ≡ line_at size user ledger.now }
{
    let at = size * user;
    &ledger[at..at + size]
}

// The session whose bytes start at the offset.
pub fn session_at(s: &[u8], at: usize) -> Session
    requires { at + 16 ≤ length s.now }
    ensures { result ≡ session_in (drop at s.now) }
{
    Session {
        active: octets::get_u64(s, at),
        history: octets::get_u64(s, at + 8),
    }
}

// The sessions whose bytes start at the offset.
fn sessions_at(s: &[u8], at: usize) -> [Session; SESSIONS]
    requires { at + 16 * SESSIONS ≤ length s.now }
    ensures { result ≡ read_sessions SESSIONS (drop at s.now) }
{
    let mut sessions = [Session {
        active: 0,
        history: 0,
    }; SESSIONS];
    for (k, session) in sessions.iter_mut().enumerate() {
        *session = session_at(s, at + 16 * k);
    }
    sessions
}

// The line of the user. That it is there is a clause: callers have it by the refusals 9 and 10, and a `Ledger` would be
// made at ten calls that read one line each.
pub fn line_of(ledger: &[u8], user: usize) -> Line
    requires { line_size SESSIONS * user + line_size SESSIONS ≤ length ledger.now }
    ensures { result ≡ read_line SESSIONS (line_at (line_size SESSIONS) user ledger.now) }
{
    let at = LINE * user;
    let sessions = sessions_at(ledger, at + 16);
    Line {
        opened: octets::get_u64(ledger, at),
        history: octets::get_u64(ledger, at + 8),
        sessions,
    }
}

// ---- writes

// Writes a session's bytes at the offset.
fn put_session(s: &mut [u8], at: usize, session: Session)
    requires { at + 16 ≤ length s.old }
    ensures { s.new ≡ splice s.old at (session_bytes session) }
{
    octets::put_u64(s, at, session.active);
    octets::put_u64(s, at + 8, session.history);
}

// Writes the sessions' bytes from the offset on.
fn put_sessions(s: &mut [u8], at: usize, sessions: [Session; SESSIONS])
    requires { at + 16 * SESSIONS ≤ length s.old }
    ensures { s.new ≡ splice s.old at (write_sessions sessions) }
{
    for (k, session) in sessions.iter().enumerate() {
        put_session(s, at + 16 * k, *session);
    }
}

// Puts the line in place of the user's. That it is there is a clause: a `Ledger` lends its bytes to be read alone.
pub fn put_line(ledger: &mut [u8], user: usize, l: Line)
    requires { line_size SESSIONS * user + line_size SESSIONS ≤ length ledger.old }
    ensures { ledger.new ≡ with_line (line_size SESSIONS) user (write_line l) ledger.old }
{
    let at = LINE * user;
    octets::put_u64(ledger, at, l.opened);
    octets::put_u64(ledger, at + 8, l.history);
    let sessions = l.sessions;
    put_sessions(ledger, at + 16, sessions);
}
