// The last word of an image and the sum of all words.
ghost use Rattle.std.specs.Prelude.{◌≡◌, ℕ, ◌-◌, true, List};
ghost use Rattle.model.specs.Image.{fault};
ghost use Rattle.reasons.specs.Numbers.{fault_of, checked_of};
ghost use Rattle.image.specs.Ending.{Closing};

use image_faults::fault::{at_place, kind_fault, spared};
use image_words::word::decode;
use image_words::words::ImageWords;
use model::{Entry, Head, Scan, Word, layout};
use reasons::{Reason, Refusal};

// The last word, where so many members are due: it is the end, or is refused.
fn end_fault(due: u32, w: Word) -> Result<(), Reason>
    ensures { ((h : Head) (rows : List ℕ) (t : Scan) → t.due ≡ due → fault_of result ≡ fault h rows t true w)
        × (fault_of result ≡ 0 → w.entry ≡ Entry.End) }
{
    kind_fault(true, due, w.entry)?;
    spared(w.spare, Ok(()))
}

// The last word, where so many members are due, and the sum of all words; `sum` is that of the words before it.
pub fn closing(image: &ImageWords, h: Head, due: u32, sum: u32) -> Result<Head, Refusal>
    ensures { Closing image.now.bytes.now h image.now.count due sum (checked_of result) }
{
    let end = image.last();
    let w = image.word(end);
    at_place(end_fault(due, decode(w)), end)?;
    if sum.wrapping_add(w) % layout::KIND_UNIT != 0 {
        return Err(Refusal {
            reason: Reason::Balance,
            extra: end as u16,
        });
    }
    Ok(h)
}
