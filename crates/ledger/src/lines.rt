// A ledger's bytes as lines: of how many sessions each is, and how many users have one.
ghost use Rattle.std.specs.Prelude.{◌≡◌, ◌*◌, ◌≤◌, ◌<◌, length};
ghost use Rattle.model.specs.declared.TheConstants.{SESSIONS};
ghost use Rattle.model.specs.Line.{line_size};
ghost use Rattle.model.specs.Run.{line_at};

use crate::bytes::line_bytes;

// The bytes of a line, and how many sessions it has.
#[derive(Clone, Copy)]
pub struct LineBytes<'a> {
    pub bytes: &'a [u8],
    pub sessions: u8,
    ghost whole: { length bytes.now ≡ line_size sessions },
    ghost some: { 0 < sessions },
    ghost most: { sessions ≤ SESSIONS },
}

// The bytes of a ledger, how many sessions each of its lines has, and how many users have a line.
#[derive(Clone, Copy)]
pub struct Ledger<'a> {
    pub bytes: &'a [u8],
    pub sessions: u8,
    pub users: usize,
    ghost whole: { length bytes.now ≡ line_size sessions * users },
    ghost some: { 0 < sessions },
    ghost most: { sessions ≤ SESSIONS },
}

impl<'a> Ledger<'a> {
    // The user's line.
    pub fn line(&self, user: usize) -> LineBytes<'a>
        requires { user < self.now.users }
        ensures { (result.bytes.now ≡ line_at (line_size self.now.sessions) user self.now.bytes.now)
            × (result.sessions ≡ self.now.sessions) }
    {
        let size = 16 + 16 * (self.sessions as usize);
        LineBytes {
            bytes: line_bytes(self.bytes, size, user),
            sessions: self.sessions,
        }
    }
}
