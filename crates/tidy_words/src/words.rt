// Words written one behind another into a byte slice, with their sum on the way.
ghost use Rattle.std.specs.Prelude.{◌+◌, ◌*◌, ◌^◌, ◌≤◌, [], ◌∷◌};
ghost use Rattle.tidy_words.specs.Buffers.{written, Puts, Room, set_words};

// Bytes that words are written into: where the next word goes, and the sum of the words so far.
#[derive(Drop)]
pub struct Writer<'a> {
    pub out: &'a mut [u8],
    pub at: usize,
    pub sum: u32,
}

impl<'a> Writer<'a> {
    // Writes a word.
    pub fn put_word(&mut self, w: u32)
        requires { Room (written self.old) (w ∷ []) }
        ensures { Puts self.old self.new (w ∷ []) }
    {
        let bytes = w.to_le_bytes();
        let out = &mut *self.out;
        octets::put(out, self.at, &bytes);
        self.at += 4;
        self.sum = self.sum.wrapping_add(w);
    }

    // Writes a word for each member of the set, ascending: the first word and so many units as the member's number
    // says.
    pub fn put_set(&mut self, first: u32, unit: u32, set: u64)
        requires { Room (written self.old) (set_words 64 first unit set) × (first + 64 * unit ≤ 2 ^ 32) }
        ensures { Puts self.old self.new (set_words 64 first unit set) }
    {
        for k in sets::members(set) {
            self.put_word(first + (k as u32) * unit);
        }
    }
}
