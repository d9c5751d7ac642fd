// The check: each word judged by the words before it, the earliest bad word decides, and the sum of all words comes
// last.
ghost use Rattle.std.specs.Prelude.{◌≡◌, ℕ, ◌+◌, ◌-◌, ◌<◌, ◌≤◌, false, List, IfOk};
ghost use Rattle.model.specs.declared.Checked.TheVariants.{Accepted};
ghost use Rattle.model.specs.declared.Head.{Head as HeadOf};
ghost use Rattle.model.specs.Image.{decode as decode_of, sparing, entry_fault, assigning, next as next_of, scan, empty_rows, start, judge_words};
ghost use Rattle.model.specs.Policy.{entries_from, fold, ordering, policy_of};
ghost use Rattle.reasons.specs.Numbers.{fault_of, checked_of};
ghost use Rattle.image_words.specs.Bounds.{Small};
ghost use Rattle.image.specs.Taken.{Due, Taken};

use crate::ending::closing;
use crate::front::words_of;
use image_faults::fault::{
    assignment_fault, at_place, exclusion_fault, grant_fault, kind_fault, limit_fault,
    member_fault, senior_fault, spared,
};
use image_usual::taking::NoGrants;
use image_usual::usual::{members, opens, pass};
use image_words::word::decode;
use image_words::words::{ImageWords, Run};
use model::{Entry, Head, Role, Scan, User, Word};
use reasons::{Reason, Refusal};

// ---- a word judged and, where it has no fault, taken in

// An assignment without fault goes into the roles assigned so far.
pub fn take_assignment(
    h: Head,
    assigned: &mut [u64; 64],
    spare: u32,
    u: User,
    r: Role,
) -> Result<(), Reason>
    requires { (u.0 < 64) × (r.0 < 64) }
    ensures { ((t : Scan) → fault_of result ≡ sparing spare (entry_fault h assigned.old t (Entry.Assignment u r)))
        × (fault_of result ≡ 0 → assigned.new ≡ assigning assigned.old (Entry.Assignment u r)) }
{
    spared(spare, assignment_fault(h, assigned, u, r))?;
    let who = u.0 as usize;
    let row = sets::with(assigned[who], r);
    assigned[who] = row;
    Ok(())
}

// A senior word without fault goes into the direct juniors so far.
pub fn take_senior(
    h: Head,
    juniors: &mut [u64; 64],
    spare: u32,
    a: Role,
    b: Role,
) -> Result<(), Reason>
    requires { (a.0 < 64) × (b.0 < 64) }
    ensures { ((rows : List ℕ) (t : Scan) → fault_of result ≡ sparing spare (entry_fault h rows t (Entry.Senior a b)))
        × (fault_of result ≡ 0 → juniors.new ≡ ordering juniors.old (Entry.Senior a b)) }
{
    spared(spare, senior_fault(h, a, b))?;
    let who = a.0 as usize;
    let row = sets::with(juniors[who], b);
    juniors[who] = row;
    Ok(())
}

// A word before the last judged and taken in. One match a word, so that one jump goes to the arm: each tests the spare
// bits and judges, and those of an assignment and of a senior word store.
// Beside `step` of tables_words::take, whose clause has five tables and a place: one function for both asks for a trait
// of three stores (of a grant, a limit, an exclusion's place), each with its rows, its step and a law of the other
// words, and two impls, which is longer than these eight arms.
fn taken(
    h: Head,
    assigned: &mut [u64; 64],
    juniors: &mut [u64; 64],
    t: Scan,
    w: Word,
) -> Result<(), Reason>
    requires { Small w.entry }
    ensures { Taken h assigned.old juniors.old t false w (fault_of result) assigned.new juniors.new }
{
    kind_fault(false, t.due, w.entry)?;
    let spare = w.spare;
    match w.entry {
        Entry::Assignment(u, r) => take_assignment(h, assigned, spare, u, r),
        Entry::Grant(r, p) => spared(spare, grant_fault(h, r, p)),
        Entry::Senior(a, b) => take_senior(h, juniors, spare, a, b),
        Entry::Exclude(x, m) => spared(spare, exclusion_fault(h, t, x, m)),
        Entry::Member(r) => spared(spare, member_fault(h, t, r)),
        Entry::Limit(r, n) => spared(spare, limit_fault(h, r, n)),
        Entry::End => spared(spare, Ok(())),
        Entry::Unknown => spared(spare, Ok(())),
    }
}

// What a word without fault leaves to judge the next one by.
pub fn next(t: Scan, e: Entry) -> Scan
    requires { Small e × Due t e }
    ensures { result ≡ next_of t e }
{
    match e {
        Entry::Exclude(_, m) => Scan {
            exclusions: t.exclusions + 1,
            due: m as u32,
            members: 0,
        },
        Entry::Member(r) => Scan {
            exclusions: t.exclusions,
            due: t.due - 1,
            members: sets::with(t.members, r),
        },
        _ => t,
    }
}

// What a word before the last leaves to judge the next one by, where it has no fault. An exclusion word without fault
// is known by few tests, any other is decoded.
fn take(
    h: Head,
    assigned: &mut [u64; 64],
    juniors: &mut [u64; 64],
    t: Scan,
    w: u32,
) -> Result<Scan, Reason>
    ensures { Taken h assigned.old juniors.old t false (decode_of w) (fault_of result) assigned.new juniors.new
        × IfOk result (λ s. s ≡ next_of t (decode_of w).entry) }
{
    if let Some(opened) = opens(h.roles, t, w) {
        return Ok(opened);
    }
    let word = decode(w);
    taken(h, assigned, juniors, t, word)?;
    Ok(next(t, word.entry))
}

// ---- the words behind the head, and the whole

// Usual words in runs, and the other words one by one, each exclusion word with its members.
// Beside tables::read::read_words: there every other word is decoded, since an exclusion's place is kept; here an
// exclusion word is known by few tests, and members are looked for behind such a word alone.
fn check_words(
    image: &ImageWords,
    h: Head,
    first: u32,
    assigned: &mut [u64; 64],
    juniors: &mut [u64; 64],
) -> Result<Head, Refusal>
    requires { 2 ≤ image.now.count }
    ensures { (checked_of result ≡ scan image.now.bytes.now h (image.now.count - 1) 1 assigned.old start first)
        × ((g : HeadOf) → checked_of result ≡ Accepted g
        → (assigned.new ≡ fold assigning assigned.old (entries_from image.now.bytes.now (image.now.count - 1) 1))
        × (juniors.new ≡ fold ordering juniors.old (entries_from image.now.bytes.now (image.now.count - 1) 1))) }
{
    let end = image.last();
    let mut t = Scan::default();
    let mut at = Run {
        place: 1,
        sum: first,
    };
    // A turn takes a run of usual words, and a word with the members behind it, so the places are not counted one by
    // one.
    while at.place < end {
        let here = pass(image, at, h, t.due, assigned, &mut NoGrants, juniors);
        if end <= here.place {
            at = here;
            continue;
        }
        let w = image.word(here.place);
        let left = at_place(take(h, assigned, juniors, t, w), here.place)?;
        let joined = members(image, here.past(w), h.roles, left);
        t = joined.scan;
        at = joined.run;
    }
    closing(image, h, t.due, at.sum)
}

// Judges an image by its words: accepted with the head's numbers, or refused by 1 to 8 with a place. Of an accepted
// image the tables have the roles assigned to each user and the direct juniors of each role.
pub fn check(
    image: &[u8],
    assigned: &mut [u64; 64],
    juniors: &mut [u64; 64],
) -> Result<Head, Refusal>
    requires { (assigned.old ≡ empty_rows) × (juniors.old ≡ empty_rows) }
    ensures { (checked_of result ≡ judge_words image.now)
        × ((g : HeadOf) → checked_of result ≡ Accepted g
        → (assigned.new ≡ (policy_of image.now).assigned) × (juniors.new ≡ (policy_of image.now).juniors)) }
{
    let front = words_of(image)?;
    let words = front.words;
    check_words(&words, front.head, words.word(0), assigned, juniors)
}
