// An image as words, and a place among them with the sum of the words before it.
ghost use Rattle.std.specs.Prelude.{◌≡◌, ◌+◌, ◌-◌, ◌*◌, ◌%◌, ◌^◌, ◌<◌, ◌≤◌, length};
ghost use Rattle.model.specs.Image.{word_at};

// The bytes of an image, and how many words of it they hold, the head among them.
#[derive(Clone, Copy)]
pub struct ImageWords<'a> {
    pub bytes: &'a [u8],
    pub count: usize,
    ghost whole: { 4 * count ≤ length bytes.now },
    ghost least: { 1 ≤ count },
    ghost most: { count ≤ 4096 },
}

impl ImageWords<'_> {
    // The word at a place, the head at place 0.
    pub fn word(&self, place: usize) -> u32
        requires { place < self.now.count }
        ensures { result ≡ word_at self.now.bytes.now place }
    {
        octets::word_at(self.bytes, place)
    }

    // The place of the last word.
    pub fn last(&self) -> usize
        ensures { result ≡ self.now.count - 1 }
    {
        self.count - 1
    }
}

// A place among the words of an image, and the sum of the words before it.
#[derive(Clone, Copy)]
pub struct Run {
    pub place: usize,
    pub sum: u32,
}

impl Run {
    // The place behind the word w, which stands here.
    pub fn past(self, w: u32) -> Run
        requires { self.place < 4096 }
        ensures place { result.place ≡ self.place + 1 }
        ensures sum { result.sum ≡ (self.sum + w) % 2 ^ 32 }
    {
        Run {
            place: self.place + 1,
            sum: self.sum.wrapping_add(w),
        }
    }
}
