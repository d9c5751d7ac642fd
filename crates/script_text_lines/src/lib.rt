// The text of an output line, written into a buffer.
#![tactic(auto)]

ghost use Rattle.std.specs.Prelude.{◌≡◌, ◌∷◌, ◌+◌, ◌*◌, ◌/◌, ◌%◌, ◌≤◌, ◌<◌, length, take, drop};
ghost use Rattle.model.specs.Bytes.{number as number_of};
ghost use Rattle.model_script.specs.Script.{numeral, line_of};
ghost use Rattle.script_text.specs.Writing.{Writes};
ghost use Rattle.script_text_lines.specs.Pairs.{pairs_of, Highest};

use script_text::{Writer, glyph};

// Writes a number in decimal. The decimal of a clause text counts on past its buffer's end (docs/DECISIONS.md, 118).
pub fn put_decimal(text: &mut Writer, n: u64)
    requires { text.old.at + length (numeral 10 n) ≤ length text.old.out.now }
    ensures { Writes text.old text.new (numeral 10 n) }
{
    if n < 10 {
        let d = glyph(n as u8);
        text.put(d);
        return;
    }
    put_decimal(text, n / 10);
    let d = glyph((n % 10) as u8);
    text.put(d);
}

// Writes both digits of each byte, the highest first.
fn put_pairs(text: &mut Writer, bytes: &[u8])
    requires { text.old.at + 2 * length bytes.now ≤ length text.old.out.now }
    ensures { Writes text.old text.new (pairs_of (length bytes.now) bytes.now) }
{
    for b in bytes.iter().rev() {
        text.put_pair(*b);
    }
}

// The place of the last byte that is not zero.
fn highest(bytes: &[u8]) -> Option<usize>
    ensures { Highest bytes.now result }
{
    let zeros = bytes.iter().rev().position(|b| *b != 0)?;
    Some(bytes.len() - 1 - zeros)
}

// Writes the number that bytes make, the lowest first, in hexadecimal without leading zeros.
pub fn put_hexadecimal(text: &mut Writer, bytes: &[u8])
    requires { text.old.at + 2 * length bytes.now + 1 ≤ length text.old.out.now }
    ensures { (Writes text.old text.new (numeral 16 (number_of bytes.now)))
        × (text.new.at ≤ text.old.at + 2 * length bytes.now + 1) }
{
    let Some(highest) = highest(bytes) else {
        text.put(b'0');
        return;
    };
    text.put_byte(bytes[highest]);
    put_pairs(text, &bytes[..highest]);
}

// Writes the first figure of a line.
pub fn put_first(text: &mut Writer, n: u64)
    requires { text.old.at + 20 ≤ length text.old.out.now }
    ensures { (Writes text.old text.new (numeral 10 n)) × (text.new.at ≤ text.old.at + 20) }
{
    put_decimal(text, n);
}

// Writes a blank and a number in decimal.
pub fn put_number(text: &mut Writer, n: u64)
    requires { text.old.at + 21 ≤ length text.old.out.now }
    ensures { (Writes text.old text.new (32 ∷ numeral 10 n)) × (text.new.at ≤ text.old.at + 21) }
{
    text.put(b' ');
    put_first(text, n);
}

// Writes a blank and the set that bytes make in hexadecimal.
fn put_set(text: &mut Writer, bytes: &[u8])
    requires { text.old.at + 2 * length bytes.now + 2 ≤ length text.old.out.now }
    ensures { (Writes text.old text.new (32 ∷ numeral 16 (number_of bytes.now)))
        × (text.new.at ≤ text.old.at + 2 * length bytes.now + 2) }
{
    text.put(b' ');
    put_hexadecimal(text, bytes);
}

// The roles of an answer, and the permissions.
fn roles_of(answer: &[u8; 40]) -> &[u8]
    ensures { (result.now ≡ take 8 answer.now) × (length result.now ≡ 8) }
{
    &answer[0..8]
}

fn permissions_of(answer: &[u8; 40]) -> &[u8]
    ensures { (result.now ≡ drop 8 answer.now) × (length result.now ≡ 32) }
{
    &answer[8..40]
}

// Writes the line of call n for an answer: its number, its extra, and the 40 bytes of roles and permissions.
pub fn put_line(text: &mut Writer, n: u64, number: u64, extra: u64, answer: &[u8; 40])
    requires { text.old.at + 160 ≤ length text.old.out.now }
    ensures { (Writes text.old text.new
        (line_of n number extra (number_of (take 8 answer.now)) (number_of (drop 8 answer.now))))
        × (text.new.at ≤ text.old.at + 160) }
{
    put_first(text, n);
    put_number(text, number);
    put_number(text, extra);
    put_set(text, roles_of(answer));
    put_set(text, permissions_of(answer));
    text.put(b'\n');
}
