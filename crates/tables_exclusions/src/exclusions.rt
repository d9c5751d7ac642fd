// The exclusions of an image, read at the places of their words.
ghost use Rattle.std.specs.Prelude.{◌≡◌, map, ◌+◌, ◌-◌, ◌*◌, ◌^◌, ◌≤◌, ◌<◌, length, All};
ghost use Rattle.model.specs.Policy.{fold, joining, entries_from};
ghost use Rattle.image_words.specs.Bounds.{Small};
ghost use Rattle.exclusion_rows.specs.Table.{exclusion_list};
ghost use Rattle.tables_exclusions.specs.Exclusions.{exclusion_at as exclusion_at_of};

use exclusion_rows::ExclusionTable;
use image_words::word::decode;
use image_words::words::ImageWords;
use model::{Entry, Exclusion};

// The members, with the role that a member word names.
fn joined(members: u64, e: Entry) -> u64
    requires { Small e }
    ensures { result ≡ joining members e }
{
    let Entry::Member(r) = e else {
        return members;
    };
    sets::with(members, r)
}

// The members, with those that the words from one place to another name.
fn members_in(image: &[u8], from: usize, to: usize, members: u64) -> u64
    requires { (4 * to ≤ length image.now) × (from ≤ to) }
    ensures { result ≡ fold joining members (entries_from image.now (to - from) from) }
{
    let mut set = members;
    // The number is the place of a word in bytes: there is no slice of words to walk.
    for place in from..to {
        set = joined(set, decode(octets::word_at(image, place)).entry);
    }
    set
}

// The exclusion at a place, of an image of so many words. It is no Option: a caller gives the place of an exclusion
// word, so there is nothing to test. Bytes and words go one by one: ImageWords has 4,096 words at most, and `words` may
// be more.
pub fn exclusion_at(image: &[u8], words: usize, place: usize) -> Exclusion
    requires { (4 * words ≤ length image.now) × (place < words) × (words ≤ 2 ^ 62) }
    ensures { result ≡ exclusion_at_of image.now words place }
{
    let word = decode(octets::word_at(image, place));
    let Entry::Exclude(x, m) = word.entry else {
        return Exclusion::default();
    };
    let to = (place + 1 + m as usize).min(words);
    Exclusion {
        kind: x.kind,
        n: x.n,
        members: members_in(image, place + 1, to, x.members),
    }
}

// The exclusions at the places.
pub fn exclusions_at(image: &ImageWords, places: &[usize], table: &mut ExclusionTable)
    requires { (length places.now ≤ 32) × All (λ p. p < image.now.count) places.now }
    ensures { exclusion_list table.new ≡ map (exclusion_at_of image.now.bytes.now image.now.count) places.now }
{
    for (i, place) in places.iter().enumerate() {
        table.rows[i] = exclusion_at(image.bytes, image.count, *place);
    }
    table.count = places.len();
}
