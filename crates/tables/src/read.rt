// One pass over an image that judges it and fills the tables of its policy on the way.
ghost use Rattle.std.specs.Prelude.{◌≡◌, ℕ, ◌-◌, ◌≤◌, ◌<◌, get_or, IfOk, IfErr, Ok};
ghost use Rattle.model.specs.declared.Head.{Head as HeadOf};
ghost use Rattle.model.specs.Image.{scan, start, judge_words};
ghost use Rattle.model.specs.Judgement.{judge};
ghost use Rattle.model.specs.Policy.{policy_of, authorized};
ghost use Rattle.reasons.specs.Numbers.{number_of, checked_of};
ghost use Rattle.policy_tables.specs.Held.{Holds};
ghost use Rattle.tables.specs.Tables.{Fresh, Gathered, Read};

use hierarchy_judged::loops::{judged, settled};
use image::check::next;
use image::ending::closing;
use image::front::words_of;
use image_faults::fault::at_place;
use image_usual::usual::{members, pass};
use image_words::word::decode;
use image_words::words::{ImageWords, Run};
use model::{Checked, Head, Scan};
use policy_tables::PolicyTables;
use reasons::Refusal;
use tables_exclusions::exclusions::exclusions_at;
use tables_words::take::{Placed, step};

// Judges the words behind a right head, and fills the tables; `first` is the head's word.
fn read_words(
    image: &ImageWords,
    h: Head,
    first: u32,
    tables: &mut PolicyTables,
) -> Result<Head, Refusal>
    requires { 2 ≤ image.now.count }
    ensures { (checked_of result ≡ scan image.now.bytes.now h (image.now.count - 1) 1 tables.old.authorized start first)
        × ((g : HeadOf) → result ≡ Ok g → Gathered image.now.bytes.now (image.now.count - 1) tables.old tables.new) }
{
    let end = image.last();
    let mut places = [0usize; 32];
    let mut t = Scan::default();
    let mut at = Run {
        place: 1,
        sum: first,
    };
    // A turn takes the members that are due, a run of usual words and one other word, so the places are not counted one
    // by one.
    while at.place < end {
        let joined = members(image, at, h.roles, t);
        t = joined.scan;
        let here = pass(
            image,
            joined.run,
            h,
            t.due,
            &mut tables.authorized,
            &mut tables.granted,
            &mut tables.below,
        );
        if end <= here.place {
            at = here;
            continue;
        }
        let w = image.word(here.place);
        let word = decode(w);
        let placed = Placed {
            word,
            place: here.place,
        };
        let taken = step(
            h,
            &mut tables.authorized,
            &mut tables.granted,
            &mut tables.below,
            &mut tables.limits,
            &mut places,
            t,
            placed,
        );
        at_place(taken, here.place)?;
        t = next(t, word.entry);
        at = here.past(w);
    }
    let head = closing(image, h, t.due, at.sum)?;
    exclusions_at(
        image,
        &places[..t.exclusions as usize],
        &mut tables.exclusions,
    );
    Ok(head)
}

// Judges an image by its words and, where they pass, leaves in the tables the head's numbers, the roles assigned to
// each user, the permissions granted to each role, the direct juniors of each role, the limit of each role and the
// exclusions.
fn gather(image: &[u8], tables: &mut PolicyTables) -> Result<Head, Refusal>
    requires { Fresh tables.old }
    ensures { (checked_of result ≡ judge_words image.now)
        × ((g : HeadOf) → result ≡ Ok g → Read (policy_of image.now) tables.new) }
{
    let front = words_of(image)?;
    let words = front.words;
    let head = read_words(&words, front.head, words.word(0), tables)?;
    tables.head = head;
    Ok(head)
}

// Judges an image and, where it is accepted, leaves the tables of its policy: the roles that each user may activate,
// the permissions granted to each role, the roles below each role, the limit of each role and the exclusions.
// One copy of it serves every call, so that the archive keeps within its size.
#[inline(never)]
pub fn read(image: &[u8], tables: &mut PolicyTables) -> Result<(), Refusal>
    requires { Fresh tables.old }
    ensures accepted { IfOk result (λ _. (judge image.now ≡ Checked.Accepted tables.new.head) × Holds tables.new (policy_of image.now)) }
    ensures own { IfOk result (λ _. (u : ℕ) → u < (policy_of image.now).head.users
        → get_or tables.new.authorized u 0 ≡ authorized (policy_of image.now) u) }
    ensures refused { IfErr result (λ r. judge image.now ≡ Checked.Refused (number_of r.reason) r.extra) }
{
    let words = gather(image, tables);
    if settled(words, &tables.below) {
        words?;
        return Ok(());
    }
    judged(words, &mut tables.authorized, &mut tables.below)??;
    Ok(())
}

// Judges an image and, where it is accepted, leaves in the tables what its words say: the roles assigned to each user,
// the permissions granted to each role, the direct juniors of each role, the limit of each role and the exclusions. The
// tables are not closed here, as they are by `read` (docs/DECISIONS.md, 28).
pub fn read_direct(image: &[u8], tables: &mut PolicyTables) -> Result<(), Refusal>
    requires { Fresh tables.old }
    ensures accepted { IfOk result (λ _. (judge image.now ≡ Checked.Accepted tables.new.head) × Read (policy_of image.now) tables.new) }
    ensures refused { IfErr result (λ r. judge image.now ≡ Checked.Refused (number_of r.reason) r.extra) }
{
    let words = gather(image, tables);
    if settled(words, &tables.below) {
        words?;
        return Ok(());
    }
    let mut own = tables.authorized;
    let mut below = tables.below;
    judged(words, &mut own, &mut below)??;
    Ok(())
}
