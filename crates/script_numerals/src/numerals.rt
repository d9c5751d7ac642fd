// The words of a script that are numbers.
ghost use Rattle.std.specs.Prelude.{◌≡◌, true, ◌+◌, ◌-◌, ◌*◌, ◌%◌, ◌≤◌, ◌<◌, length, take};
ghost use Rattle.model.specs.Tests.{all};
ghost use Rattle.model.specs.Bytes.{bytes_of};
ghost use Rattle.model_script.specs.Script.{digit as digit_of, is_digit as is_digit_of, is_numeral as is_numeral_of, value};
ghost use Rattle.script_numerals.specs.Numbers.{digit_value, number_of, bound_of};

// The value of a digit, none for a byte that is no digit.
pub fn digit(c: u8) -> Option<u8>
    ensures { result ≡ digit_value c }
{
    match c {
        b'0'..=b'9' => Some(c - b'0'),
        b'A'..=b'F' => Some(c - b'A' + 10),
        b'a'..=b'f' => Some(c - b'a' + 10),
        _ => None,
    }
}

// The value of a digit; a byte that is no digit counts as 16, more than each digit.
fn weight(c: u8) -> u8
    ensures { result ≡ digit_of c }
{
    digit(c).unwrap_or(16)
}

// Whether a byte is a digit of the base.
fn is_digit(c: u8, base: u8) -> bool
    ensures { result ≡ is_digit_of base c }
{
    weight(c) < base
}

// Whether every byte is a digit of the base.
pub fn all_digits(w: &[u8], base: u8) -> bool
    ensures { result ≡ all (is_digit_of base) w.now }
{
    w.iter().all(|c| is_digit(*c, base))
}

// Whether a word has 1 to `most` digits of the base.
pub fn is_numeral(w: &[u8], base: u8, most: usize) -> bool
    ensures { result ≡ is_numeral_of base most w.now }
{
    if w.is_empty() {
        return false;
    }
    w.len() <= most && all_digits(w, base)
}

// The number that at most 9 digits make.
pub fn value_of(w: &[u8]) -> u64
    requires { length w.now ≤ 9 }
    ensures { result ≡ value 10 w.now }
{
    let mut v = 0;
    for c in w {
        v = 10 * v + u64::from(weight(*c));
    }
    v
}

// A word read as a decimal of 1 to 9 digits.
pub fn decimal(w: &[u8]) -> Option<u64>
    ensures { result ≡ number_of w.now }
{
    if is_numeral(w, 10, 9) {
        Some(value_of(w))
    } else {
        None
    }
}

// The byte that the last two of the first m hexadecimal digits make.
pub fn last_pair(w: &[u8], m: usize) -> u8
    requires { (0 < m) × (m ≤ length w.now) × (all (is_digit_of 16) w.now ≡ true) }
    ensures { result ≡ value 16 (take m w.now) % 256 }
{
    let low = weight(w[m - 1]);
    if m < 2 {
        return low;
    }
    16 * weight(w[m - 2]) + low
}

// The 32 bytes of the set that at most 64 hexadecimal digits write.
pub fn bound_bytes(w: &[u8]) -> [u8; 32]
    requires { (length w.now ≤ 64) × (all (is_digit_of 16) w.now ≡ true) }
    ensures { result ≡ bytes_of 32 (value 16 w.now) }
{
    let mut bytes = [0; 32];
    // A turn takes two figures from the end, or the one that is left.
    for j in 0..w.len().div_ceil(2) {
        bytes[j] = last_pair(w, w.len() - 2 * j);
    }
    bytes
}

// A word read as a bound of 1 to 64 hexadecimal digits.
pub fn hexadecimal(w: &[u8]) -> Option<[u8; 32]>
    ensures { result ≡ bound_of w.now }
{
    if is_numeral(w, 16, 64) {
        Some(bound_bytes(w))
    } else {
        None
    }
}
