// The faults of a word behind the head; `assigned` has the roles assigned so far, a row a user.
ghost use Rattle.std.specs.Prelude.{◌≡◌, List, ℕ, ◌^◌, ◌<◌, Ok, Err, IfOk, IfErr};
ghost use Rattle.model.specs.Tests.{pick};
ghost use Rattle.model.specs.Image.{wrong_kind as wrong_kind_of, sparing, entry_fault};
ghost use Rattle.reasons.specs.Numbers.{fault_of};

use model::{Entry, Exclusion, Head, Permission, Role, Scan, User};
use reasons::{Reason, Refusal};

// The word is of a kind that cannot stand at its place.
fn wrong_kind(last: bool, due: u32, e: Entry) -> bool
    ensures { result ≡ wrong_kind_of last due e }
{
    match e {
        Entry::Member(_) => last | (due == 0),
        Entry::End => !last | (due != 0),
        Entry::Unknown => true,
        _ => last | (due != 0),
    }
}

// The word is of a kind that can stand at its place.
pub fn kind_fault(last: bool, due: u32, e: Entry) -> Result<(), Reason>
    ensures { fault_of result ≡ pick (wrong_kind_of last due e) 3 0 }
{
    if wrong_kind(last, due, e) {
        return Err(Reason::Kind);
    }
    Ok(())
}

// The user and the role are in range, and the role is not a 17th of the user.
pub fn assignment_fault(h: Head, assigned: &[u64; 64], u: User, r: Role) -> Result<(), Reason>
    requires { (u.0 < 64) × (r.0 < 64) }
    ensures { (t : Scan) → fault_of result ≡ entry_fault h assigned.now t (Entry.Assignment u r) }
{
    if h.users <= u.0 {
        return Err(Reason::Range);
    }
    if h.roles <= r.0 {
        return Err(Reason::Range);
    }
    let who = u.0 as usize;
    let mine = assigned[who];
    if sets::has(mine, r) {
        return Ok(());
    }
    if sets::size(mine) < 16 {
        return Ok(());
    }
    Err(Reason::Crowd)
}

pub fn grant_fault(h: Head, r: Role, p: Permission) -> Result<(), Reason>
    ensures { (rows : List ℕ) (t : Scan) → fault_of result ≡ entry_fault h rows t (Entry.Grant r p) }
{
    if h.roles <= r.0 {
        return Err(Reason::Range);
    }
    if h.permissions <= p.0 as u16 {
        return Err(Reason::Range);
    }
    Ok(())
}

pub fn senior_fault(h: Head, a: Role, b: Role) -> Result<(), Reason>
    ensures { (rows : List ℕ) (t : Scan) → fault_of result ≡ entry_fault h rows t (Entry.Senior a b) }
{
    if h.roles <= a.0 {
        return Err(Reason::Range);
    }
    if h.roles <= b.0 {
        return Err(Reason::Range);
    }
    if a == b {
        return Err(Reason::Repeat);
    }
    Ok(())
}

pub fn exclusion_fault(h: Head, t: Scan, x: Exclusion, m: u8) -> Result<(), Reason>
    ensures { (rows : List ℕ) → fault_of result ≡ entry_fault h rows t (Entry.Exclude x m) }
{
    if m < 1 {
        return Err(Reason::Range);
    }
    if h.roles < m {
        return Err(Reason::Range);
    }
    if x.n < 2 {
        return Err(Reason::Range);
    }
    if m < x.n {
        return Err(Reason::Range);
    }
    if 32 <= t.exclusions {
        return Err(Reason::Crowd);
    }
    Ok(())
}

pub fn member_fault(h: Head, t: Scan, r: Role) -> Result<(), Reason>
    requires { r.0 < 64 }
    ensures { (rows : List ℕ) → fault_of result ≡ entry_fault h rows t (Entry.Member r) }
{
    if h.roles <= r.0 {
        return Err(Reason::Range);
    }
    if sets::has(t.members, r) {
        return Err(Reason::Repeat);
    }
    Ok(())
}

pub fn limit_fault(h: Head, r: Role, t: u16) -> Result<(), Reason>
    ensures { (rows : List ℕ) (s : Scan) → fault_of result ≡ entry_fault h rows s (Entry.Limit r t) }
{
    if h.roles <= r.0 {
        return Err(Reason::Range);
    }
    if t < 2 {
        return Err(Reason::Range);
    }
    if 256 < t {
        return Err(Reason::Range);
    }
    Ok(())
}

// Spare bits are the fault, else the one that is given.
pub fn spared(spare: u32, fault: Result<(), Reason>) -> Result<(), Reason>
    ensures { fault_of result ≡ sparing spare (fault_of fault) }
{
    if spare != 0 {
        return Err(Reason::Spare);
    }
    fault
}

// What a word comes to, where a fault is refused at the word's place.
pub fn at_place<A>(outcome: Result<A, Reason>, place: usize) -> Result<A, Refusal>
    requires { place < 2 ^ 16 }
    ensures done { IfOk result (λ a. outcome ≡ Ok a) }
    ensures refused { IfErr result (λ r. (outcome ≡ Err r.reason) × (r.extra ≡ place)) }
{
    outcome.map_err(|reason| Refusal {
        reason,
        extra: place as u16,
    })
}
