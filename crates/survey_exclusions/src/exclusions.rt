// The lines of an image's exclusions, or that of its refusal.
ghost use Rattle.std.specs.Prelude.{◌≡◌, ◌+◌, ◌≤◌, length};
ghost use Rattle.model.specs.Judgement.{judge as judgement_of};
ghost use Rattle.model.specs.Policy.{policy_of};
ghost use Rattle.model.specs.Ranges.{Each};
ghost use Rattle.script_text.specs.Writing.{Writes};
ghost use Rattle.model_survey.specs.Survey.{exclusion_line, exclusion_lines};
ghost use Rattle.model_survey.specs.Parts.{opening_of, is_accepted};
ghost use Rattle.survey_exclusions.specs.Writing.{Fitting};

use image_reader::exclusion_after;
use model::Exclusion;
use script_text::Writer;
use survey_figures::figures::{put_four, put_two};
use tables::judge::judge;
use tables_exclusions::exclusions::exclusion_at;

// Writes the line of an exclusion.
fn put_exclusion(text: &mut Writer, x: Exclusion)
    requires { (text.old.at + 84 ≤ length text.old.out.now) × Fitting x }
    ensures { (Writes text.old text.new (exclusion_line x)) × (text.new.at ≤ text.old.at + 84) }
{
    let kind = x.kind;
    let which = exclusion_rows::number_of(kind);
    let size = sets::size(x.members);
    let sets = model_binomials::allowed(size as usize, x.n as usize);
    put_four(text, which as u64, x.n as u64, size as u64, sets);
}

// Writes the lines of an image's exclusions. The reader goes from one to the next, in image order, and a repeated one
// comes again.
fn put_exclusions(text: &mut Writer, image: &[u8])
    requires { (text.old.at + 2688 ≤ length text.old.out.now) × (length (policy_of image.now).exclusions ≤ 32)
        × (Each Fitting (policy_of image.now).exclusions) }
    ensures { (Writes text.old text.new (exclusion_lines (policy_of image.now).exclusions))
        × (text.new.at ≤ text.old.at + 2688) }
{
    let words = image.len() / 4;
    let mut place: usize = 0;
    // An exclusion is looked for behind the one before, in image order (docs/DECISIONS.md, 9).
    while let Some(at) = exclusion_after(image, place) {
        put_exclusion(text, exclusion_at(image, words, at));
        place = at;
    }
}

// Writes what is printed before the script is read: the lines of an accepted image's exclusions, or the number and the
// extra of a refused one. Returns whether the image is accepted; it is no Result, since a refused image has a text too.
pub fn put_opening(image: &[u8], text: &mut Writer) -> bool
    requires { text.old.at + 2688 ≤ length text.old.out.now }
    ensures { (Writes text.old text.new (opening_of (judgement_of image.now) image.now))
        × (text.new.at ≤ text.old.at + 2688) × (result ≡ is_accepted (judgement_of image.now)) }
{
    match judge(image) {
        Ok(_) => {
            put_exclusions(text, image);
            true
        }
        Err(refusal) => {
            put_two(text, u64::from(refusal.reason), refusal.extra as u64);
            false
        }
    }
}
