// The lines of a script, answered from the chunks in which it is read.
ghost use Rattle.std.specs.Prelude.{◌≡◌, [], ◌+◌, ◌≤◌, ◌<◌, length};
ghost use Rattle.script_input.specs.Kept.{lines_from};
ghost use Rattle.script_text.specs.Writing.{written};
ghost use Rattle.script_answers.specs.Buffers.{outcome, Ready, GoesOn, AnswersLines};

use script_input::lines::BegunLine;
use script_text::Writer;

// Where the run stands in a chunk: the place of the next byte, and how many calls are answered.
#[derive(Clone, Copy)]
pub struct Place {
    pub next: usize,
    pub calls: u64,
}

// Answers lines of a chunk from a place on, until the chunk ends or the writer has no room for one line more.
pub fn answer_lines(
    image: &[u8],
    ledger: &mut [u8],
    line: &mut BegunLine,
    chunk: &[u8],
    text: &mut Writer,
    p: Place,
) -> Place
    requires { Ready chunk.now text.old p }
    ensures { (GoesOn text.old text.new) × (AnswersLines image.now chunk.now line.old ledger.old (written text.old) p
        line.new ledger.new (written text.new) result) }
{
    let Place {
        mut next,
        mut calls,
    } = p;
    // A turn takes a line, as long as there is room for its answer: no number is counted.
    while 160 <= text.out.len() - text.at {
        let end = line.gather(chunk, next);
        if chunk.len() <= end {
            return Place { next: end, calls };
        }
        calls += 1;
        script_replies::respond(image, ledger, line.bytes(), calls, text);
        line.clear();
        next = end + 1;
    }
    Place { next, calls }
}

// Answers a line that is begun at the end of the input.
#[tactic(auto, using(crate::proofs::Steps::last_nothing))]
pub fn answer_last(image: &[u8], ledger: &mut [u8], line: &BegunLine, calls: u64, text: &mut Writer)
    requires { (text.old.at + 160 ≤ length text.old.out.now) × (calls < 18446744073709551615) }
    ensures { (GoesOn text.old text.new)
        × (written text.new ≡ outcome image.now ledger.old calls (written text.old) (lines_from line.now [])) }
{
    let bytes = line.bytes();
    if bytes.len() < 1 {
        return;
    }
    script_replies::respond(image, ledger, bytes, calls + 1, text);
}
