// What roles carry: the roles within a bound, the permissions of a role set.
ghost use Rattle.std.specs.Prelude.{◌≡◌, ◌&&◌, not, true, MatchOption};
ghost use Rattle.model.specs.Tests.{pick, lowest, if_below};
ghost use Rattle.model.specs.Sets.{has, union, within};
ghost use Rattle.model.specs.Policy.{Meaning};
ghost use Rattle.model.specs.Choice.{carried_by as carried_by_of};
ghost use Rattle.sets.specs.Words.{value};
ghost use Rattle.query.specs.Carry.{rows_of, number_of, Carry, Keeps, Missing, Reaches};

use model::{Permission, Role};
use sets_split::permission_at;

// The roles of a set that carry nothing outside the upper bound.
pub fn usable(rows: &[[u64; 4]; 64], upper: [u64; 4], set: u64) -> u64
    ensures { Keeps (λ i. within (rows_of rows.now i) (value upper)) set result }
{
    let mut found = 0;
    for k in sets::members(set) {
        let next = sets::with_if(found, Role(k), sets::perm_within(rows[k as usize], upper));
        found = next;
    }
    found
}

// What the roles of a set carry, under every policy in which each of them carries its row.
pub fn carried_by(rows: &[[u64; 4]; 64], set: u64) -> [u64; 4]
    ensures { (m : Meaning) → Carry m set (rows_of rows.now) → value result ≡ carried_by_of m set }
{
    sets::perm_union_at(rows, set)
}

// The set, with the row's permissions too where `on` says so.
fn added(set: [u64; 4], row: [u64; 4], on: bool) -> [u64; 4]
    ensures { value result ≡ union (value set) (pick on (value row) 0) }
{
    if on {
        return sets::perm_union(set, row);
    }
    set
}

// For each role what the roles of a set carry from that role on.
pub fn reach(rows: &[[u64; 4]; 64], set: u64) -> [[u64; 4]; 64]
    ensures { Reaches (rows_of rows.now) (rows_of result) set }
{
    let mut out = [[0u64; 4]; 64];
    let mut all = [0u64; 4];
    // The number is a role, whose row is read and whose row of the table is filled: a zip would need it besides.
    for k in (0..64usize).rev() {
        let on = sets::has(set, Role(k as u8));
        let next = added(all, rows[k], on);
        all = next;
        out[k] = next;
    }
    out
}

// The lowest permission of a that b lacks, where there is one.
pub fn missing(a: [u64; 4], b: [u64; 4]) -> Option<Permission>
    ensures found { MatchOption result (within (value a) (value b) ≡ true) (λ p. Missing (value a) (value b) p.0) }
    ensures least { number_of result ≡ if_below 256 (lowest (λ q. has (value a) q && not (has (value b) q)) 0 256) }
{
    // The place goes into the answer, and both sets are read there: a zip would need it besides.
    for i in 0..4usize {
        let x = a[i] ^ (a[i] & b[i]);
        if x != 0 {
            return Some(permission_at(i, sets::lowest_bit(x)));
        }
    }
    None
}
