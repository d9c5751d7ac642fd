// The script as it is read, and the counts of its answers.
ghost use Rattle.std.specs.Prelude.{◌≡◌, ℕ, ◌+◌, ◌≤◌, ◌<◌, replicate, IfOk, IfSome};
ghost use Rattle.model.specs.Judgement.{judge};
ghost use Rattle.model_script.specs.Script.{first_ledger};
ghost use Rattle.survey_counts.specs.Counting.{Most};

use script_input::lines::BegunLine;
use std::io;
use std::io::Read;
use survey_counts::counts::{count_chunk, count_last};

// The program of answers reads by its own loop: it writes between two reads, and so can fail in two ways, this in one.
// One loop over a trait would need a law on what each keeps between two reads, and a struct for each: more lines.
// The buffers are lent one by one: each step lends some of them on to be read, and others to be written.

// Reads once and counts the answers to what came, and returns how many calls are answered; at the end of the input,
// that to the line that is begun, and then the run goes no further. A read that fails is not the end.
fn count_some(
    input: &mut impl Read,
    image: &[u8],
    ledger: &mut [u8],
    line: &mut BegunLine,
    chunk: &mut [u8; 65536],
    counts: &mut [u64; 256],
    calls: u64,
) -> io::Result<Option<u64>>
    requires { (Most counts.old calls) × (calls + 65536 < 18446744073709551615) }
    ensures { IfOk result (λ o. IfSome o (λ (r : ℕ). (r ≤ calls + 65536) × (Most counts.new r))) }
{
    let count = input.read(chunk)?;
    if count == 0 {
        count_last(image, ledger, line, counts, calls);
        return Ok(None);
    }
    Ok(Some(count_chunk(image, ledger, line, &chunk[..count], counts, calls)))
}

// Reads and counts until the input ends, and returns whether it is read to its end. A proved loop has to end, so it
// counts its turns, up to a number of reads that no run uses up; it keeps the counts within 64 bits.
fn count_each(
    input: &mut impl Read,
    image: &[u8],
    ledger: &mut [u8],
    line: &mut BegunLine,
    chunk: &mut [u8; 65536],
    counts: &mut [u64; 256],
) -> io::Result<bool>
    requires { Most counts.old 0 }
{
    let mut calls: u64 = 0;
    for _turn in 0..281474976710655u64 {
        let Some(after) = count_some(input, image, ledger, line, chunk, counts, calls)? else {
            return Ok(true);
        };
        calls = after;
    }
    Ok(false)
}

// Counts the answers to all of the input from the first ledger on, by a buffer for a line and one for what is read;
// returns whether the input is read to its end.
pub fn count_all(
    input: &mut impl Read,
    image: &[u8],
    ledger: &mut [u8],
    counts: &mut [u64; 256],
) -> io::Result<bool>
    requires { (ledger.old ≡ first_ledger (judge image.now)) × (counts.old ≡ replicate 256 0) }
{
    let mut line = BegunLine::new();
    let mut chunk = [0u8; 65536];
    count_each(input, image, ledger, &mut line, &mut chunk, counts)
}
