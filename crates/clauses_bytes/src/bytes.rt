// Bytes and decimals.
ghost use Rattle.std.specs.Prelude.{◌≡◌, ◌+◌, ◌/◌, ◌%◌, ◌<◌, ◌≤◌, true, [], ◌∷◌, length};
ghost use Rattle.model.specs.Dimacs.{figure as figure_of, decimal};
ghost use Rattle.clauses_bytes.specs.Putting.{Puts, Sets, packed_to, packed_text};

// Puts write whatever the room: a byte past the buffer's end is counted and not written. Sets want room for what they
// write: one test of the room serves a line, where a put tests at each byte (docs/landings/R6.md). The place of the
// next byte goes beside the buffer, by value: in a struct that each function is lent it is stored and loaded at each
// step, and a line takes a tenth longer; a writer of both takes 1.6 of the time.

// ---- bytes

// Puts one byte.
pub fn put(out: &mut [u8], at: usize, b: u8) -> usize
    ensures { Puts out.old at (b ∷ []) out.new result }
{
    if at < out.len() {
        out[at] = b;
        return at + 1;
    }
    at.wrapping_add(1)
}

// Puts some bytes.
pub fn put_all(out: &mut [u8], at: usize, bytes: &[u8]) -> usize
    ensures { Puts out.old at bytes.now out.new result }
{
    let mut next = at;
    for &b in bytes {
        next = put(out, next, b);
    }
    next
}

// There is room for so many bytes.
pub fn has_room(out: &[u8], at: usize, size: usize) -> bool
    ensures { result ≡ true → at + size ≤ length out.now }
{
    size <= out.len() && at <= out.len() - size
}

// There is room for no byte, and a text of a length that a buffer may have ends at a number of 64 bits.
pub fn is_full(out: &[u8], at: usize) -> bool
    ensures { result ≡ true → (length out.now ≤ at) × (at < 9223372036854775808) }
{
    out.len() <= at && at < 9223372036854775808
}

// Sets some bytes.
#[inline(always)]
pub fn set_all(out: &mut [u8], at: usize, bytes: &[u8]) -> usize
    requires { at + length bytes.now ≤ length out.old }
    ensures { Sets out.old at (length bytes.now) bytes.now out.new result }
{
    let end = at + bytes.len();
    out[at..end].copy_from_slice(bytes);
    end
}

// The last digit of a number, in ASCII.
#[tactic(auto, unfolding(model::specs::Dimacs::figure))]
fn figure(n: usize) -> u8
    ensures { result ≡ figure_of n }
{
    b'0' + (n % 10) as u8
}

// ---- packed texts: up to five bytes as one number, the first lowest

// A text in an array would be lent to every function that puts a line (docs/DECISIONS.md 141).

// The lowest byte.
fn low_byte(p: usize) -> u8
    ensures { result ≡ p % 256 }
{
    (p % 256) as u8
}

// Sets a packed text.
pub fn set_packed(out: &mut [u8], at: usize, p: usize) -> usize
    requires { at + 5 ≤ length out.old }
    ensures { Sets out.old at 5 (packed_text p) out.new result }
{
    let a = low_byte(p);
    if p < 256 {
        return set_all(out, at, &[a]);
    }
    let b = low_byte(p / 256);
    if p < 65536 {
        return set_all(out, at, &[a, b]);
    }
    let c = low_byte(p / 256 / 256);
    if p < 16777216 {
        return set_all(out, at, &[a, b, c]);
    }
    let d = low_byte(p / 256 / 256 / 256);
    if p < 4294967296 {
        return set_all(out, at, &[a, b, c, d]);
    }
    set_all(out, at, &[a, b, c, d, low_byte(p / 256 / 256 / 256 / 256)])
}

// Puts the bytes of a number byte by byte, at most k and one more.
pub fn put_each(out: &mut [u8], at: usize, k: usize, p: usize) -> usize
    ensures { Puts out.old at (packed_to k p) out.new result }
{
    let next = put(out, at, low_byte(p));
    if k < 1 {
        return next;
    }
    if p < 256 {
        return next;
    }
    put_each(out, next, k - 1, p / 256)
}

// Puts a packed text: where there is room for any by one test of it.
pub fn put_packed(out: &mut [u8], at: usize, p: usize) -> usize
    ensures { Puts out.old at (packed_text p) out.new result }
{
    if has_room(out, at, 5) {
        return set_packed(out, at, p);
    }
    put_each(out, at, 4, p)
}

// How long a packed text is.
#[tactic(auto, using(crate::proofs::PackedLaws::packed_widths))]
pub fn packed_width(p: usize) -> usize
    ensures { (result ≡ length (packed_text p)) × (result ≤ 5) }
{
    if p < 256 {
        return 1;
    }
    if p < 65536 {
        return 2;
    }
    if p < 16777216 {
        return 3;
    }
    if p < 4294967296 {
        return 4;
    }
    5
}

// A number of at most five digits in decimal, packed.
pub fn packed(n: usize) -> usize
    requires { n < 100000 }
    ensures { packed_text result ≡ decimal n }
{
    let ones = 48 + n % 10;
    if n < 10 {
        return ones;
    }
    let tens = 48 + n / 10 % 10 + ones * 256;
    if n < 100 {
        return tens;
    }
    let hundreds = 48 + n / 10 / 10 % 10 + tens * 256;
    if n < 1000 {
        return hundreds;
    }
    let thousands = 48 + n / 10 / 10 / 10 % 10 + hundreds * 256;
    if n < 10000 {
        return thousands;
    }
    48 + n / 10 / 10 / 10 / 10 % 10 + thousands * 256
}

// ---- decimals

// Puts a number below 1,000 in decimal.
fn put_low(out: &mut [u8], at: usize, n: usize) -> usize
    requires { n < 1000 }
    ensures { Puts out.old at (decimal n) out.new result }
{
    if n < 10 {
        return put(out, at, figure(n));
    }
    if n < 100 {
        return put_all(out, at, &[figure(n / 10), figure(n)]);
    }
    put_all(out, at, &[figure(n / 10 / 10), figure(n / 10), figure(n)])
}

// Puts a number in decimal, three digits at a time, byte by byte.
pub fn put_long(out: &mut [u8], at: usize, n: usize) -> usize
    ensures { Puts out.old at (decimal n) out.new result }
{
    if n < 1000 {
        return put_low(out, at, n);
    }
    let next = put_long(out, at, n / 10 / 10 / 10);
    put_all(out, next, &[figure(n / 10 / 10), figure(n / 10), figure(n)])
}

// Sets the last three digits of a number.
fn set_last(out: &mut [u8], at: usize, n: usize) -> usize
    requires { at + 3 ≤ length out.old }
    ensures { Sets out.old at 3 (figure_of (n / 10 / 10) ∷ figure_of (n / 10) ∷ figure_of n ∷ []) out.new result }
{
    let low = n % 1000;
    let rest = low % 100;
    set_all(
        out,
        at,
        &[figure(low / 100), figure(rest / 10), figure(rest)],
    )
}

// Sets a number below 1,000 in decimal.
fn set_low(out: &mut [u8], at: usize, n: usize) -> usize
    requires { (n < 1000) × (at + 3 ≤ length out.old) }
    ensures { Sets out.old at 3 (decimal n) out.new result }
{
    if n < 10 {
        return set_all(out, at, &[figure(n)]);
    }
    if n < 100 {
        return set_all(out, at, &[figure(n / 10), figure(n)]);
    }
    set_last(out, at, n)
}

// Sets a number below 1,000,000 in decimal.
pub fn set_six(out: &mut [u8], at: usize, n: usize) -> usize
    requires { (n < 1000000) × (at + 6 ≤ length out.old) }
    ensures { Sets out.old at 6 (decimal n) out.new result }
{
    if n < 1000 {
        return set_low(out, at, n);
    }
    let next = set_low(out, at, n / 10 / 10 / 10);
    set_last(out, next, n)
}

// How many digits a number below 1,000 has.
#[tactic(auto, using(crate::proofs::RoomLaws::low_widths))]
fn low_width(n: usize) -> usize
    requires { n < 1000 }
    ensures { (result ≡ length (decimal n)) × (result ≤ 3) }
{
    if n < 10 {
        return 1;
    }
    if n < 100 {
        return 2;
    }
    3
}

// How many digits a number below 1,000,000 has.
#[tactic(auto, using(crate::proofs::RoomLaws::width_more))]
pub fn width(n: usize) -> usize
    requires { n < 1000000 }
    ensures { (result ≡ length (decimal n)) × (result ≤ 6) }
{
    if n < 1000 {
        return low_width(n);
    }
    3 + low_width(n / 10 / 10 / 10)
}
