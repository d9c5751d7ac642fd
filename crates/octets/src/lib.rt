// Little-endian numbers in byte slices: 4-byte words and 8-byte numbers read, 8-byte numbers and runs of bytes put in.
#![tactic(auto)]

ghost use Rattle.std.specs.Prelude.{◌≡◌, [], ◌∷◌, ◌+◌, ◌*◌, ◌≤◌, length};
ghost use Rattle.model.specs.Image.{word_at};
ghost use Rattle.model.specs.Bytes.{number, bytes_of};
ghost use Rattle.octets.specs.Splice.{splice, number_at, bytes_of_all};

// ---- reads

// The word at a place, the first at place 0.
pub fn word_at(s: &[u8], place: usize) -> u32
    requires { 4 * place + 4 ≤ length s.now }
    ensures { result ≡ word_at s.now place }
{
    let at = 4 * place;
    u32::from_le_bytes(s[at..at + 4].try_into().unwrap())
}

// The number at the offset.
pub fn get_u64(s: &[u8], at: usize) -> u64
    requires { at + 8 ≤ length s.now }
    ensures { result ≡ number_at s.now at }
{
    u64::from_le_bytes(s[at..at + 8].try_into().unwrap())
}

// ---- writes

// The eight bytes of the number.
pub fn bytes_of(v: u64) -> [u8; 8]
    ensures { result ≡ bytes_of 8 v }
{
    v.to_le_bytes()
}

// Copies all of the bytes into s at the offset.
pub fn put(s: &mut [u8], at: usize, bytes: &[u8])
    requires { at + length bytes.now ≤ length s.old }
    ensures { s.new ≡ splice s.old at bytes.now }
{
    let end = at + bytes.len();
    s[at..end].copy_from_slice(bytes);
}

// Writes the number at the offset.
pub fn put_u64(s: &mut [u8], at: usize, v: u64)
    requires { at + 8 ≤ length s.old }
    ensures { s.new ≡ splice s.old at (bytes_of 8 v) }
{
    let bytes = bytes_of(v);
    put(s, at, &bytes);
}

// Writes the numbers one behind another from the offset on.
pub fn put_numbers(s: &mut [u8], at: usize, numbers: &[u64])
    requires { at + 8 * length numbers.now ≤ length s.old }
    ensures { s.new ≡ splice s.old at (bytes_of_all numbers.now) }
{
    for (k, v) in numbers.iter().enumerate() {
        put_u64(s, at + 8 * k, *v);
    }
}
