// Bytes and hexadecimal digits, written one behind another into a buffer.
#![tactic(auto)]

ghost use Rattle.std.specs.Prelude.{◌≡◌, [], ◌∷◌, ◌+◌, ◌≤◌, ◌<◌, length};
ghost use Rattle.model_script.specs.Script.{glyph as glyph_of, numeral};
ghost use Rattle.script_text.specs.Writing.{Writes, pair_of, written};

// The ASCII code of a digit below 16, in small letters.
pub fn glyph(d: u8) -> u8
    requires { d < 16 }
    ensures { result ≡ glyph_of d }
{
    match d {
        0..=9 => b'0' + d,
        _ => b'a' + (d - 10),
    }
}

// A buffer that a text is written into, and the place of the text's next byte.
#[derive(Drop)]
pub struct Writer<'a> {
    pub out: &'a mut [u8],
    pub at: usize,
}

impl<'a> Writer<'a> {
    // The text that is written so far.
    pub fn written(&self) -> &[u8]
        requires { self.now.at ≤ length self.now.out.now }
        ensures { result.now ≡ written self.now }
    {
        &self.out[..self.at]
    }

    // Writes one byte.
    pub fn put(&mut self, b: u8)
        requires { self.old.at < length self.old.out.now }
        ensures { Writes self.old self.new (b ∷ []) }
    {
        self.out[self.at] = b;
        self.at += 1;
    }

    // Writes both hexadecimal digits of a byte.
    pub fn put_pair(&mut self, b: u8)
        requires { self.old.at + 2 ≤ length self.old.out.now }
        ensures { Writes self.old self.new (pair_of b) }
    {
        let high = glyph(b / 16);
        let low = glyph(b % 16);
        self.put(high);
        self.put(low);
    }

    // Writes a byte in hexadecimal, without a leading zero.
    pub fn put_byte(&mut self, b: u8)
        requires { self.old.at + 2 ≤ length self.old.out.now }
        ensures { Writes self.old self.new (numeral 16 b) }
    {
        if b < 16 {
            let d = glyph(b);
            self.put(d);
            return;
        }
        self.put_pair(b);
    }
}
