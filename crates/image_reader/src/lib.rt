// A reader over a policy image: a struct that holds the image's bytes and the place of the next word, and gives the
// words behind the head one by one. The work is done by functions of a slice and a place. A place is a word's number in
// the image, and the head has place 0.
#![tactic(auto)]

ghost use Rattle.std.specs.Prelude.{◌≡◌, ◌+◌, ◌-◌, ◌<◌, IfSome};
ghost use Rattle.std.specs.Iterator.{at_most};
ghost use Rattle.model.specs.Image.{behind_head as behind_head_of};
ghost use Rattle.image_reader.specs.Places.{found_at, place_after as place_after_of, is_exclusion as is_exclusion_of, place_of, exclusion_after as exclusion_after_of};
ghost use Rattle.image_reader.specs.Readers.{Reads};

use model::{Entry, Word};

// ---- by slice and place

// How many words stand behind the head.
fn behind_head(image: &[u8]) -> usize
    ensures { result ≡ behind_head_of image.now }
{
    (image.len() / 4).saturating_sub(1)
}

// The word at a place behind the head, decoded, if the image has such a place.
pub fn entry_at(image: &[u8], place: usize) -> Option<Word>
    ensures { result ≡ found_at image.now place }
{
    if place < 1 {
        return None;
    }
    let last = behind_head(image);
    if last < place {
        return None;
    }
    Some(image_words::word::decode(octets::word_at(image, place)))
}

// The place after the one given; behind the last word there is none, and it stays.
pub fn place_after(image: &[u8], place: usize) -> usize
    ensures { result ≡ place_after_of image.now place }
{
    let last = behind_head(image);
    if last < place {
        return place;
    }
    place + 1
}

// ---- the reader

// The image's bytes, and the place of the next word.
#[derive(Clone, Copy)]
pub struct Reader<'a> {
    pub image: &'a [u8],
    pub at: usize,
}

// What stands at the reader's place, which moves on; behind the last word it stays.
impl Iterator for Reader<'_> {
    type Item = Word;

    ghost next_gives = { Reads };

    ghost remaining = { λ r. at_most (behind_head_of r.image.now + 1 - r.at) };

    fn next(&mut self) -> Option<Word> {
        let found = entry_at(self.image, self.at);
        self.at = place_after(self.image, self.at);
        found
    }
}

// ---- for callers that hold no reader; docs/DECISIONS.md, 9, names both functions

// The entry behind the place.
pub fn entry_after(image: &[u8], place: usize) -> Option<Word>
    ensures { result ≡ found_at image.now (place + 1) }
{
    let mut reader = Reader {
        image,
        at: place_after(image, place),
    };
    reader.next()
}

// What was found is an exclusion's word.
fn is_exclusion(found: Option<Word>) -> bool
    ensures { result ≡ is_exclusion_of found }
{
    let Some(word) = found else {
        return false;
    };
    matches!(word.entry, Entry::Exclude(_, _))
}

// The place of the first exclusion behind the place: from one to the next, the exclusions in image order.
pub fn exclusion_after(image: &[u8], place: usize) -> Option<usize>
    ensures { (place_of result ≡ exclusion_after_of image.now place) × IfSome result (λ q. place < q) }
{
    let last = behind_head(image);
    // The place is the answer.
    for at in place..last {
        if is_exclusion(entry_after(image, at)) {
            return Some(at + 1);
        }
    }
    None
}
