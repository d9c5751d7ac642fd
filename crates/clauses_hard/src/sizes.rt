// How many helpers and hard clauses an ask has.
ghost use Rattle.std.specs.Prelude.{◌≡◌, ◌+◌, ◌-◌, ◌*◌, ◌≤◌, length};
ghost use Rattle.sets.specs.Words.{value};
ghost use Rattle.query_reduced.specs.Met.{masks_of, ns_of};
ghost use Rattle.query_reduced.specs.Reduction.{listed};
ghost use Rattle.clauses_hard.specs.Parts.{rows_of};
ghost use Rattle.clauses_hard.specs.Sizes.{row_size as row_size_of, tallied, counter_size as counter_size_of, helpers_to, counters_size as counters_size_of, carrying_size as carrying_size_of, hard_size as hard_size_of};

use crate::members::{members_below, permissions_below};
use crate::question::Question;
use clauses_counter::counter::helpers;
use clauses_lines::variables::Variables;
use query_reduced::reduced::Reduced;

// How many clauses say what roles carry.
fn carrying_size(rows: &[[u64; 4]; 64], variables: Variables) -> usize
    ensures { (result ≡ carrying_size_of variables.roles variables.permissions (rows_of rows.now)) × (result ≤ 16384) }
{
    let mut total: usize = 0;
    for row in &rows[..variables.roles] {
        total += permissions_below(*row, variables.permissions);
    }
    total
}

// How many helpers the exclusions have.
#[tactic(auto, using(crate::proofs::SizeLaws::sum_done), unfolding(crate::specs::Sizes::helpers_to))]
pub fn helpers_of(exclusions: &Reduced) -> usize
    ensures { let xs = listed exclusions.now in (result ≡ helpers_to (masks_of xs) (ns_of xs) (length xs)) × (result ≤ 8796093020160) }
{
    let mut total: usize = 0;
    for x in exclusions.list() {
        total += helpers(x.n, x.members);
    }
    total
}

// How many clauses a row of n helpers has.
#[tactic(auto, unfolding(crate::specs::Sizes::row_size))]
fn row_size(n: u32) -> usize
    ensures { (result ≡ row_size_of n) × (result ≤ 8589934590) }
{
    if n < 1 {
        return 1;
    }
    2 * n as usize
}

// How many clauses a counter of m members has.
fn tally(m: usize, n: u32) -> usize
    requires { m ≤ 64 }
    ensures { (result ≡ tallied m n) × (result ≤ 549755813762) }
{
    if m < 1 {
        return 0;
    }
    2 + (m - 1) * row_size(n)
}

// How many clauses a counter of the members of a set has.
fn counter_size(n: u32, members: u64) -> usize
    ensures { (result ≡ counter_size_of n members) × (result ≤ 549755813762) }
{
    tally(sets::size(members) as usize, n)
}

// How many clauses the exclusions have.
#[tactic(auto, using(crate::proofs::SizeLaws::sum_done), unfolding(crate::specs::Sizes::counters_size))]
fn counters_size(exclusions: &Reduced) -> usize
    ensures { let xs = listed exclusions.now in
        (result ≡ counters_size_of (masks_of xs) (ns_of xs) (length xs)) × (result ≤ 17592186040384) }
{
    let mut total: usize = 0;
    for x in exclusions.list() {
        total += counter_size(x.n, x.members);
    }
    total
}

// How many hard clauses there are.
pub fn hard_size(rows: &[[u64; 4]; 64], q: Question, exclusions: &Reduced) -> usize
    ensures { let xs = listed exclusions.now in
        (result ≡ hard_size_of q.variables.roles q.variables.permissions q.authorized (rows_of rows.now) (value q.lower) (value q.upper)
        (masks_of xs) (ns_of xs) (length xs)) × (result ≤ 35184372088832) }
{
    let variables = q.variables;
    let lower = q.lower;
    let upper = q.upper;
    let permissions = variables.permissions;
    let barred = variables.roles - members_below(q.authorized, variables.roles);
    let carried = carrying_size(rows, variables);
    let low = permissions_below(lower, permissions);
    let high = permissions - permissions_below(upper, permissions);
    barred + carried + permissions + low + high + counters_size(exclusions)
}
