// A word judged and, where it has no fault, taken into the tables.
ghost use Rattle.std.specs.Prelude.{◌≡◌, false, List, ℕ, ◌<◌};
ghost use Rattle.model.specs.Image.{sparing, entry_fault};
ghost use Rattle.model.specs.Policy.{granting, lesser as lesser_of, limiting};
ghost use Rattle.reasons.specs.Numbers.{fault_of};
ghost use Rattle.sets.specs.Words.{values};
ghost use Rattle.image_words.specs.Bounds.{Small};
ghost use Rattle.tables_words.specs.Step.{noting, Step};

use image::check::{take_assignment, take_senior};
use image_faults::fault::{
    exclusion_fault, grant_fault, kind_fault, limit_fault, member_fault, spared,
};
use model::{Entry, Exclusion, Head, Permission, Role, Scan, Word};
use reasons::Reason;

fn take_grant(
    h: Head,
    granted: &mut [[u64; 4]; 64],
    spare: u32,
    r: Role,
    p: Permission,
) -> Result<(), Reason>
    requires { r.0 < 64 }
    ensures { ((rows : List ℕ) (t : Scan) → fault_of result ≡ sparing spare (entry_fault h rows t (Entry.Grant r p)))
        × (fault_of result ≡ 0 → values granted.new ≡ granting (values granted.old) (Entry.Grant r p)) }
{
    spared(spare, grant_fault(h, r, p))?;
    sets::perm_put(granted, r, p);
    Ok(())
}

// The smaller of a limit so far, 0 where there is none, and t.
fn lesser(a: u64, t: u64) -> u64
    ensures { result ≡ lesser_of a t }
{
    if a == 0 {
        return t;
    }
    if t < a {
        return t;
    }
    a
}

fn take_limit(h: Head, limits: &mut [u64; 64], spare: u32, r: Role, t: u16) -> Result<(), Reason>
    requires { r.0 < 64 }
    ensures { ((rows : List ℕ) (s : Scan) → fault_of result ≡ sparing spare (entry_fault h rows s (Entry.Limit r t)))
        × (fault_of result ≡ 0 → limits.new ≡ limiting limits.old (Entry.Limit r t)) }
{
    spared(spare, limit_fault(h, r, t))?;
    let who = r.0 as usize;
    let row = lesser(limits[who], t as u64);
    limits[who] = row;
    Ok(())
}

// An exclusion's place is noted; its members are read later.
fn take_exclusion(
    h: Head,
    places: &mut [usize; 32],
    spare: u32,
    t: Scan,
    x: Exclusion,
    m: u8,
    place: usize,
) -> Result<(), Reason>
    ensures { ((rows : List ℕ) → fault_of result ≡ sparing spare (entry_fault h rows t (Entry.Exclude x m)))
        × (fault_of result ≡ 0 → places.new ≡ noting place t.exclusions places.old (Entry.Exclude x m)) }
{
    spared(spare, exclusion_fault(h, t, x, m))?;
    let i = t.exclusions as usize;
    places[i] = place;
    Ok(())
}

// A word of an image, and its place.
#[derive(Clone, Copy)]
pub struct Placed {
    pub word: Word,
    pub place: usize,
}

// A word before the last. One match a word: each arm judges and stores; image::check::taken says why it stands beside.
// The tables are lent one by one: the places are no field of PolicyTables, and lent as a whole it would owe two facts
// more, that its head and its exclusions stay.
pub fn step(
    h: Head,
    assigned: &mut [u64; 64],
    granted: &mut [[u64; 4]; 64],
    juniors: &mut [u64; 64],
    limits: &mut [u64; 64],
    places: &mut [usize; 32],
    t: Scan,
    at: Placed,
) -> Result<(), Reason>
    requires { Small at.word.entry }
    ensures { Step h t false at.place at.word assigned.old (values granted.old) juniors.old limits.old
        places.old (fault_of result)
        assigned.new (values granted.new) juniors.new limits.new places.new }
{
    let w = at.word;
    let spare = w.spare;
    kind_fault(false, t.due, w.entry)?;
    match w.entry {
        Entry::Assignment(u, r) => take_assignment(h, assigned, spare, u, r),
        Entry::Grant(r, p) => take_grant(h, granted, spare, r, p),
        Entry::Senior(a, b) => take_senior(h, juniors, spare, a, b),
        Entry::Exclude(x, m) => take_exclusion(h, places, spare, t, x, m, at.place),
        Entry::Member(r) => spared(spare, member_fault(h, t, r)),
        Entry::Limit(r, n) => take_limit(h, limits, spare, r, n),
        Entry::End => spared(spare, Ok(())),
        Entry::Unknown => spared(spare, Ok(())),
    }
}
