// Tables of 2,048 bytes turned: 64 rows of 256 bits made 256 rows of 64, and back.
ghost use Rattle.std.specs.Prelude.{◌≡◌, true, false, ◌&&◌, ◌+◌, ◌*◌, ◌≤◌, ◌<◌, eqb, length, MatchResult};
ghost use Rattle.model.specs.Run.{returned, answered};
ghost use Rattle.octets.specs.Splice.{splice};
ghost use Rattle.reasons.specs.Numbers.{refusal_of};
ghost use Rattle.grant_table_turned.specs.Turned.{turned, unturned};
ghost use Rattle.grant_table_turned.specs.Calls.{turn_call, unturn_call};
ghost use Rattle.grant_table_turned.specs.Columns.{Numbers, turned_bytes, Part};

use grant_table_words::transpose::transpose;
use reasons::{Reason, Refusal};

// 64 numbers of a table, so many bytes apart.
fn numbers(source: &[u8], from: usize, step: usize) -> [u64; 64]
    requires { from + 63 * step + 8 ≤ length source.now }
    ensures { Numbers source.now from step result }
{
    let mut out = [0u64; 64];
    for (i, number) in out.iter_mut().enumerate() {
        *number = octets::get_u64(source, from + step * i);
    }
    out
}

// Puts the words of column w turned, 64 rows of eight bytes.
fn put_column(target: &mut [u8; 2048], w: usize, words: &[u64; 64])
    requires { w < 4 }
    ensures { target.new ≡ splice target.old (512 * w) (turned_bytes words.now) }
{
    let rows = transpose(words);
    octets::put_numbers(target, 512 * w, &rows);
}

// 64 rows of 256 bits made 256 rows of 64: bit p of row r goes to bit r of row p. Word w of each row makes 64 rows.
pub fn turn(source: &[u8; 2048], target: &mut [u8; 2048])
    ensures { target.new ≡ turned source.now }
{
    // The number is a column, of which words far apart are read; no table is walked.
    for w in 0..4usize {
        let words = numbers(source, 8 * w, 32);
        put_column(target, w, &words);
    }
}

// Which of 64 rows of one word, from row 64 * w on, have each of 64 bits.
fn part(source: &[u8; 2048], w: usize) -> [u64; 64]
    requires { w < 4 }
    ensures { Part source.now w result }
{
    let words = numbers(source, 512 * w, 8);
    transpose(&words)
}

// 256 rows of 64 bits made 64 rows of 256: bit r of row p goes to bit p of row r.
pub fn unturn(source: &[u8; 2048], target: &mut [u8; 2048])
    ensures { target.new ≡ unturned source.now }
{
    let parts = [
        part(source, 0),
        part(source, 1),
        part(source, 2),
        part(source, 3),
    ];
    // The number is the place in four parts and in the target: a zip of five would be longer.
    for r in 0..64usize {
        let row = [parts[0][r], parts[1][r], parts[2][r], parts[3][r]];
        octets::put_numbers(target, 32 * r, &row);
    }
}

// ---- the calls

// Turns the source into the target, where both have 2,048 bytes.
pub fn turn_bytes(source: &[u8], target: &mut [u8]) -> Result<(), Refusal>
    ensures { (refusal_of result ≡ returned (turn_call source.now (length target.old)))
        × (target.new ≡ answered target.old (turn_call source.now (length target.old))) }
{
    let rows = source.as_array().ok_or(Reason::Room)?;
    let columns = target.as_mut_array().ok_or(Reason::Room)?;
    turn(rows, columns);
    Ok(())
}

// Turns the source back into the target, where both have 2,048 bytes. A call of its own, with a definition of its own:
// a closure for the one line between would be as long.
pub fn unturn_bytes(source: &[u8], target: &mut [u8]) -> Result<(), Refusal>
    ensures { (refusal_of result ≡ returned (unturn_call source.now (length target.old)))
        × (target.new ≡ answered target.old (unturn_call source.now (length target.old))) }
{
    let columns = source.as_array().ok_or(Reason::Room)?;
    let rows = target.as_mut_array().ok_or(Reason::Room)?;
    unturn(columns, rows);
    Ok(())
}
