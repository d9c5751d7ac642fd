// Sets in machine words: role sets in a `u64`, permission sets in a `[u64; 4]` by value. Each function computes what
// the model's definition of the same name says of the sets that the words hold.
#![tactic(auto)]

pub mod counted; // counted.rt: sets of either kind, counted and bounded

ghost use Rattle.std.specs.Prelude.{◌≡◌, Bool, ℕ, ◌≤◌, ◌<◌, ltb, get_or, set};
ghost use Rattle.std.specs.Iterator.{at_most};
ghost use Rattle.model.specs.Tests.{pick};
ghost use Rattle.model.specs.Sets.{has as has_of, union as union_of, inter as inter_of, with as with_of, within as within_of, count, set_of as chosen, union_at};
ghost use Rattle.sets.specs.Members.{without as without_of, Lowest};
ghost use Rattle.sets.specs.Walks.{TakesLowest};
ghost use Rattle.sets.specs.Words.{value, values, FourWords};

use model::{Permission, Role};
use sets_split::split;

// ---- the bits of a word

// The lowest bit of a word that has one.
pub fn lowest_bit(word: u64) -> u8
    requires { 0 < word }
    ensures { Lowest word result }
{
    word.trailing_zeros() as u8
}

// The word has bit k.
pub fn has_bit(word: u64, k: usize) -> bool
    requires { k < 64 }
    ensures { result ≡ has_of word k }
{
    (word >> k) % 2 == 1
}

// The word without its bit k.
pub fn without_bit(word: u64, k: u8) -> u64
    requires { k < 64 }
    ensures { result ≡ without_of word k }
{
    word ^ (1 << k)
}

// The places of a word's bits, the lowest first.
#[derive(Clone, Copy)]
pub struct Bits {
    pub left: u64,
}

impl Iterator for Bits {
    type Item = u8;

    ghost next_gives = { TakesLowest };

    ghost remaining = { λ s. at_most (count 64 s.left) };

    fn next(&mut self) -> Option<u8> {
        if self.left == 0 {
            return None;
        }
        let k = lowest_bit(self.left);
        self.left = without_bit(self.left, k);
        Some(k)
    }
}

// The numbers of a set's members, the lowest first.
pub fn members(set: u64) -> Bits
    ensures { result.left ≡ set }
{
    Bits { left: set }
}

// The set of the numbers below n that pass a test.
pub fn set_of<F: Fn(usize) -> bool>(n: usize, test: F) -> u64
    requires few { n ≤ 64 }
    requires callable { (k : ℕ) → k < n → F.pre test k }
    ensures { (p : ℕ → Bool) → ((k : ℕ) (b : Bool) → k < n → F.post test k b → b ≡ p k) → result ≡ chosen p n }
{
    let mut found = 0u64;
    // The number is what is tested.
    for k in 0..n {
        if test(k) {
            found |= 1 << k;
        }
    }
    found
}

// ---- role sets

// Role sets and permission sets have names each of their own: docs/ACCEPTANCE.md names `perm_union` and `perm_within`.

pub fn has(set: u64, r: Role) -> bool
    requires { r.0 < 64 }
    ensures { result ≡ has_of set r.0 }
{
    has_bit(set, r.0 as usize)
}

// The set and the role r.
pub fn with(set: u64, r: Role) -> u64
    requires { r.0 < 64 }
    ensures { result ≡ with_of set r.0 }
{
    set | (1 << r.0)
}

// The set, and the role r too where it is on.
pub fn with_if(set: u64, r: Role, on: bool) -> u64
    requires { r.0 < 64 }
    ensures { result ≡ pick on (with_of set r.0) set }
{
    if on {
        return with(set, r);
    }
    set
}

// The set without its member r.
pub fn without(set: u64, r: Role) -> u64
    requires { r.0 < 64 }
    ensures { result ≡ without_of set r.0 }
{
    without_bit(set, r.0)
}

pub fn union(a: u64, b: u64) -> u64
    ensures { result ≡ union_of a b }
{
    a | b
}

pub fn inter(a: u64, b: u64) -> u64
    ensures { result ≡ inter_of a b }
{
    a & b
}

// Every role of a is one of b.
pub fn within(a: u64, b: u64) -> bool
    ensures { result ≡ within_of a b }
{
    a & b == a
}

// How many roles the set has.
pub fn size(a: u64) -> u32
    ensures { result ≡ count 64 a }
{
    a.count_ones()
}

// Fewer than n of the members are in the set.
pub fn fewer(set: u64, members: u64, n: u32) -> bool
    ensures { result ≡ ltb (count 64 (inter_of set members)) n }
{
    (set & members).count_ones() < n
}

// The lowest role of a set that has one.
pub fn lowest(set: u64) -> Role
    requires { 0 < set }
    ensures { Lowest set result.0 }
{
    Role(lowest_bit(set))
}

// ---- permission sets

pub fn perm_has(set: [u64; 4], p: Permission) -> bool
    ensures { result ≡ has_of (value set) p.0 }
{
    let spot = split(p);
    let place = spot.place;
    (set[place] >> spot.bit) % 2 == 1
}

// What a row's type says of its words, for a proof about a row behind a reference, of which nothing says it. There is
// nothing to run.
fn four_words(row: [u64; 4])
    ensures { FourWords row }
{}

// The row takes in the permission p: of its four words the one that has p is stored, and no other is read. A shift
// finds the place, and a subtraction the bit: a pass over grants in any order guesses wrong at comparisons.
fn row_put(row: &mut [u64; 4], p: Permission)
    ensures { value row.new ≡ with_of (value row.old) p.0 }
{
    four_words(*row);
    let high = p.0 >> 6;
    let place = high as usize;
    let bit = p.0 - high * 64;
    row[place] |= 1 << bit;
}

// Row r takes in the permission p.
pub fn perm_put(rows: &mut [[u64; 4]; 64], r: Role, p: Permission)
    requires { r.0 < 64 }
    ensures { values rows.new ≡ set (values rows.old) r.0 (with_of (get_or (values rows.old) r.0 0) p.0) }
{
    row_put(&mut rows[r.0 as usize], p);
}

pub fn perm_union(a: [u64; 4], b: [u64; 4]) -> [u64; 4]
    ensures { value result ≡ union_of (value a) (value b) }
{
    [a[0] | b[0], a[1] | b[1], a[2] | b[2], a[3] | b[3]]
}

// The permissions of the rows at the roles of a set.
pub fn perm_union_at(rows: &[[u64; 4]; 64], roles: u64) -> [u64; 4]
    ensures { value result ≡ union_at (values rows.now) roles }
{
    let mut all = [0u64; 4];
    for r in members(roles) {
        let next = perm_union(all, rows[r as usize]);
        all = next;
    }
    all
}

// Every permission of a is one of b.
pub fn perm_within(a: [u64; 4], b: [u64; 4]) -> bool
    ensures { result ≡ within_of (value a) (value b) }
{
    (a[0] & b[0] == a[0]) & (a[1] & b[1] == a[1]) & (a[2] & b[2] == a[2]) & (a[3] & b[3] == a[3])
}

// How many permissions the set has.
pub fn perm_size(a: [u64; 4]) -> u32
    ensures { result ≡ count 256 (value a) }
{
    a[0].count_ones() + a[1].count_ones() + a[2].count_ones() + a[3].count_ones()
}
