// An image judged, with no table kept.
ghost use Rattle.std.specs.Prelude.{◌≡◌};
ghost use Rattle.model.specs.Judgement.{judge as judge_of};
ghost use Rattle.reasons.specs.Numbers.{checked_of};

use hierarchy_judged::loops::{judged, settled};
use image::check::check;
use model::Head;
use reasons::Refusal;

// Judges an image by its words, and then by what they mean together.
pub fn judge(image: &[u8]) -> Result<Head, Refusal>
    ensures { checked_of result ≡ judge_of image.now }
{
    let mut assigned = [0u64; 64];
    let mut juniors = [0u64; 64];
    let words = check(image, &mut assigned, &mut juniors);
    if settled(words, &juniors) {
        return words;
    }
    judged(words, &mut assigned, &mut juniors)?
}
