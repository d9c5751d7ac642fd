// The lines of a script, from the chunks in which it is read, and the ledger that they start on.
ghost use Rattle.std.specs.Prelude.{◌≡◌, ◌+◌, ◌*◌, ◌≤◌, [], length};
ghost use Rattle.model.specs.Judgement.{judge};
ghost use Rattle.model.specs.Line.{SESSIONS};
ghost use Rattle.model_script.specs.Script.{first_ledger};
ghost use Rattle.script_input.specs.Kept.{keeping};
ghost use Rattle.script_input.specs.Buffers.{keeping_all, Gathers};

use ledger::bytes::LINE;
use std::marker::Model;

// The bytes of the longest ledger: a line for each of 64 users.
pub const LEDGER: usize = 64 * LINE;

// The length of the ledger under an image: a line for each user, none where the image is refused.
pub fn ledger_length(image: &[u8]) -> usize
    ensures { (result ≡ length (first_ledger (judge image.now))) × (result ≤ 64 * (16 + 16 * SESSIONS)) }
{
    let Ok(head) = tables::judge::judge(image) else {
        return 0;
    };
    LINE * (head.users as usize)
}

// A line of a script that is begun: its bytes so far. No more than 174 of them are kept, since a line that long is
// unreadable, whatever follows.
#[derive(Drop)]
pub struct BegunLine {
    buffer: [u8; 174],
    kept: usize,
}

impl Model for BegunLine {
    ghost use Rattle.std.specs.Prelude.{List, ℕ, ◌≤◌, take};

    ghost Value = { List ℕ };

    ghost view = { λ l. take l.kept l.buffer };

    ghost invariant = { λ l. l.kept ≤ 174 };
}

impl BegunLine {
    // A line without a byte.
    pub fn new() -> Self
        ensures { result ≡ [] }
    {
        BegunLine {
            buffer: [0; 174],
            kept: 0,
        }
    }

    // The bytes that are kept.
    pub fn bytes(&self) -> &[u8]
        ensures { (result.now ≡ self.now) × (length result.now ≤ 174) }
    {
        &self.buffer[..self.kept]
    }

    // Begins another line.
    pub fn clear(&mut self)
        ensures { self.new ≡ [] }
    {
        self.kept = 0;
    }

    // Keeps one byte more, unless 174 are kept already.
    pub fn keep(&mut self, c: u8)
        ensures { self.new ≡ keeping self.old c }
    {
        if self.kept < 174 {
            self.buffer[self.kept] = c;
            self.kept += 1;
        }
    }

    // Keeps the bytes of a chunk from `next` on, up to the newline that ends the line or to the end of the chunk, and
    // returns the place of the one or the other.
    pub fn gather(&mut self, chunk: &[u8], next: usize) -> usize
        requires { next ≤ length chunk.now }
        ensures { Gathers chunk.now next self.old self.new result }
    {
        let rest = &chunk[next..];
        let count = rest.iter().position(|c| *c == b'\n').unwrap_or(rest.len());
        self.keep_all(&rest[..count]);
        next + count
    }

    // Keeps the bytes, as many as there is room for.
    fn keep_all(&mut self, bytes: &[u8])
        ensures { self.new ≡ keeping_all self.old bytes.now }
    {
        let more = bytes.len().min(174 - self.kept);
        self.buffer[self.kept..self.kept + more].copy_from_slice(&bytes[..more]);
        self.kept += more;
    }
}
