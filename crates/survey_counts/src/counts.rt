// The answers to the lines of a script counted by their numbers, and the counts written.
ghost use Rattle.std.specs.Prelude.{◌≡◌, [], ◌+◌, ◌≤◌, ◌<◌, length, get_or};
ghost use Rattle.model_script.specs.Script.{answer_to};
ghost use Rattle.script_input.specs.Kept.{lines_from};
ghost use Rattle.script_text.specs.Writing.{Writes};
ghost use Rattle.model_survey.specs.Survey.{count_line as count_line_of, count_lines};
ghost use Rattle.survey_counts.specs.Counting.{noted, tally, Most, CountsChunk};

use script_input::lines::BegunLine;
use script_text::Writer;
use survey_figures::figures::put_two;

// Answers a line and counts its answer; returns how many calls are answered.
fn count_line(
    image: &[u8],
    ledger: &mut [u8],
    line: &[u8],
    counts: &mut [u64; 256],
    calls: u64,
) -> u64
    requires { (Most counts.old calls) × (calls < 18446744073709551615) }
    ensures { (result ≡ calls + 1)
        × (counts.new ≡ noted counts.old (answer_to image.now ledger.old line.now).reply)
        × (ledger.new ≡ (answer_to image.now ledger.old line.now).ledger)
        × (Most counts.new result) }
{
    let n = script_replies::answer(image, ledger, line) as usize;
    let had = counts[n];
    counts[n] = had + 1;
    calls + 1
}

// Answers the lines that end in a chunk and counts the answers; keeps what is behind the last newline. Returns how many
// calls are answered.
pub fn count_chunk(
    image: &[u8],
    ledger: &mut [u8],
    line: &mut BegunLine,
    chunk: &[u8],
    counts: &mut [u64; 256],
    calls: u64,
) -> u64
    requires { (Most counts.old calls) × (calls + length chunk.now ≤ 18446744073709551615) }
    ensures { CountsChunk image.now chunk.now line.old ledger.old counts.old calls
        line.new ledger.new counts.new result }
{
    let mut calls = calls;
    let mut next: usize = 0;
    // A turn takes a line, so the places are not counted one by one.
    while next < chunk.len() {
        let end = line.gather(chunk, next);
        if chunk.len() <= end {
            return calls;
        }
        calls = count_line(image, ledger, line.bytes(), counts, calls);
        line.clear();
        next = end + 1;
    }
    calls
}

// Answers a line that is begun at the end of the input, and counts its answer; returns how many calls are answered.
#[tactic(auto, using(crate::proofs::CountLaws::last_nothing))]
pub fn count_last(
    image: &[u8],
    ledger: &mut [u8],
    line: &BegunLine,
    counts: &mut [u64; 256],
    calls: u64,
) -> u64
    requires { (Most counts.old calls) × (calls < 18446744073709551615) }
    ensures { (counts.new ≡ tally image.now ledger.old counts.old (lines_from line.now []))
        × (Most counts.new result) × (result ≤ calls + 1) }
{
    let bytes = line.bytes();
    if bytes.len() < 1 {
        return calls;
    }
    count_line(image, ledger, bytes, counts, calls)
}

// Writes the line of a number that has a count.
fn put_count(text: &mut Writer, n: usize, count: u64)
    requires { (text.old.at + 42 ≤ length text.old.out.now) × (n < 256) }
    ensures { (Writes text.old text.new (count_line_of n count)) × (text.new.at ≤ text.old.at + 42) }
{
    if count < 1 {
        return;
    }
    put_two(text, n as u64, count);
}

// Writes the lines of the counts.
pub fn put_counts(text: &mut Writer, counts: &[u64; 256])
    requires { text.old.at + 10752 ≤ length text.old.out.now }
    ensures { (Writes text.old text.new (count_lines (λ n. get_or counts.now n 0) 256))
        × (text.new.at ≤ text.old.at + 10752) }
{
    // The number is printed beside its count.
    for n in 0..256usize {
        put_count(text, n, counts[n]);
    }
}
