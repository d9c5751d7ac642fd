// The script as it is read, and the answers as they are written.
ghost use Rattle.std.specs.Prelude.{◌≡◌, ℕ, ◌+◌, ◌≤◌, ◌<◌, length, IfOk, IfSome};
ghost use Rattle.model.specs.Judgement.{judge};
ghost use Rattle.model_script.specs.Script.{first_ledger};

use script_answers::lines::{Place, answer_last, answer_lines};
use script_input::failure::say;
use script_input::lines::BegunLine;
use script_text::Writer;
use std::io;
use std::io::Read;

// The buffers are lent one by one: each step lends some of them on to be read, and others to be written.

// What stops a run before the input ends.
#[derive(Drop)]
pub enum Failure {
    Read(io::Error),
    Write(io::Error),
}

impl Failure {
    // Says on standard error what can't be done, and why.
    pub fn tell(self, rt: &impl Eprint) {
        match self {
            Failure::Read(e) => say(rt, "nutrameza_script: standard input can't be read", e),
            Failure::Write(e) => say(rt, "nutrameza_script: standard output can't be written", e),
        }
    }
}

// Answers the lines of a chunk and writes the answers; returns how many calls are answered.
fn answer_chunk(
    rt: &impl Print,
    image: &[u8],
    ledger: &mut [u8],
    line: &mut BegunLine,
    chunk: &[u8],
    out: &mut [u8; 65536],
    calls: u64,
) -> io::Result<u64>
    requires { calls + length chunk.now ≤ 18446744073709551615 }
    ensures { IfOk result (λ (r : ℕ). r ≤ calls + length chunk.now) }
{
    let mut p = Place { next: 0, calls };
    // A turn takes as many lines as the output buffer has room for, so the places are not counted one by one.
    while p.next < chunk.len() {
        let mut text = Writer { out, at: 0 };
        p = answer_lines(image, ledger, line, chunk, &mut text, p);
        rt.write_all(text.written())?;
    }
    Ok(p.calls)
}

// Reads once and answers what came, and returns how many calls are answered; at the end of the input, the line that is
// begun, and then the run goes no further.
// A read that fails is not the end: a line that is begun gets no answer, since it is not known whole.
fn answer_some(
    rt: &impl Print,
    input: &mut impl Read,
    image: &[u8],
    ledger: &mut [u8],
    line: &mut BegunLine,
    chunk: &mut [u8; 65536],
    out: &mut [u8; 65536],
    calls: u64,
) -> Result<Option<u64>, Failure>
    requires { calls + 65536 < 18446744073709551615 }
    ensures { IfOk result (λ o. IfSome o (λ (r : ℕ). r ≤ calls + 65536)) }
{
    let count = input.read(chunk).map_err(Failure::Read)?;
    if count == 0 {
        let mut text = Writer { out, at: 0 };
        answer_last(image, ledger, line, calls, &mut text);
        rt.write_all(text.written()).map_err(Failure::Write)?;
        return Ok(None);
    }
    let after = answer_chunk(rt, image, ledger, line, &chunk[..count], out, calls);
    Ok(Some(after.map_err(Failure::Write)?))
}

// Reads and answers until the input ends. A proved loop has to end, so it counts its turns, up to a number of reads
// that no run uses up; it keeps the number of calls within 64 bits.
fn answer_each(
    rt: &impl Print,
    input: &mut impl Read,
    image: &[u8],
    ledger: &mut [u8],
    line: &mut BegunLine,
    chunk: &mut [u8; 65536],
    out: &mut [u8; 65536],
) -> Result<(), Failure> {
    let mut calls: u64 = 0;
    for _turn in 0..281474976710655u64 {
        let Some(after) = answer_some(rt, input, image, ledger, line, chunk, out, calls)? else {
            break;
        };
        calls = after;
    }
    Ok(())
}

// Answers all of the input from the first ledger on, by a buffer for a line and one each for what is read and what is
// written.
pub fn answer_all(
    rt: &impl Print,
    input: &mut impl Read,
    image: &[u8],
    ledger: &mut [u8],
) -> Result<(), Failure>
    requires { ledger.old ≡ first_ledger (judge image.now) }
{
    let mut line = BegunLine::new();
    let mut chunk = [0u8; 65536];
    let mut out = [0u8; 65536];
    answer_each(rt, input, image, ledger, &mut line, &mut chunk, &mut out)
}
