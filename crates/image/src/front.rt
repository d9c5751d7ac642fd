// The front of an image: its length and its head.
ghost use Rattle.std.specs.Prelude.{◌≡◌, ◌/◌, length, IfOk};
ghost use Rattle.model.specs.Image.{word_at, head_of};
ghost use Rattle.reasons.specs.Numbers.{fault_of};
ghost use Rattle.image.specs.Front.{Front};

use image_words::word::right_head;
use image_words::words::ImageWords;
use model::{Head, layout};
use reasons::Reason;

// An image whose length and head are right: its words, and the head's numbers.
#[derive(Clone, Copy)]
pub struct Headed<'a> {
    pub words: ImageWords<'a>,
    pub head: Head,
}

// The length and the head judged.
#[tactic(auto, using(crate::proofs::Judged::short_front))]
pub fn words_of(image: &[u8]) -> Result<Headed, Reason>
    ensures front { Front image.now (fault_of result) }
    ensures words { IfOk result (λ r. (r.words.bytes.now ≡ image.now) × (r.words.count ≡ length image.now / 4)) }
    ensures head { IfOk result (λ r. r.head ≡ head_of (word_at image.now 0)) }
{
    let len = image.len();
    if len % layout::WORD_BYTES != 0 {
        return Err(Reason::Length);
    }
    if len < layout::LEAST_BYTES {
        return Err(Reason::Length);
    }
    if layout::MOST_BYTES < len {
        return Err(Reason::Length);
    }
    let Some(head) = right_head(octets::word_at(image, 0)) else {
        return Err(Reason::Head);
    };
    let words = ImageWords {
        bytes: image,
        count: len / layout::WORD_BYTES,
    };
    Ok(Headed { words, head })
}
