// An exclusion that stands in the way of an ask: of the exclusions in the order of the tidy image the first with which
// no role set is left. It is found by halving: with fewer exclusions no fewer sets are left.
#![tactic(auto)]

ghost use Rattle.std.specs.Prelude.{◌≡◌, true, false, [], ℕ, ◌^◌, ◌≤◌, ◌<◌, length, take};
ghost use Rattle.std.proofs.Math.Option.{some};
ghost use Rattle.model.specs.declared.Line.{Line};
ghost use Rattle.model.specs.Sets.{within};
ghost use Rattle.model.specs.Policy.{Policy, sorted};
ghost use Rattle.model.specs.Limits.{Others};
ghost use Rattle.model.specs.Obstacle.{left, blocking, blocks};
ghost use Rattle.sets.specs.Words.{value};
ghost use Rattle.exclusion_rows.specs.Table.{exclusions_of};
ghost use Rattle.query.specs.Carry.{rows_of, Turned, Keeps};
ghost use Rattle.asks.specs.Asks.{left_to, Asked};
ghost use Rattle.obstacles_lacks.specs.Founds.{blocking_of};
ghost use Rattle.obstacles_blocks.specs.Firsts.{Finds, under, Ends};
ghost use Rattle.obstacles_blocks.specs.Blocking.{ReducedBy, blocked_of};

pub mod first; // first.rt: a search that ends with the first set

use crate::first::some_step;
use asks_request::request::Wanted;
use exclusion_rows::ExclusionTable;
use model::Exclusion;
use obstacles_lacks::found::Blocking;
use query::carriers::join_carriers;
use query::carry::usable;
use query_rank::objective::Objective;
use query_rank::{Job, Node};
use query_reduced::exclusions::reduce;
use query_reduced::line_session::LineSession;
use query_reduced::met::reduced_met;
use query_reduced::reduced::ReducedExclusion;
use search_steps::Query;
use tidy_order::sort::sort;

// What the searches share: the rows of the roles, the lower bound, the free roles, which fit the upper bound, and for
// each permission of the bound those of them that carry it.
#[derive(Clone, Copy)]
struct Shared<'a> {
    rows: &'a [[u64; 4]; 64],
    lower: [u64; 4],
    free: u64,
    turned: &'a [u64; 256],
    ghost carriers: { Turned (rows_of rows.now) turned.now (value lower) free },
}

// With these exclusions some set of the free roles carries the lower bound.
fn left_with(shared: &Shared, exclusions: &[ReducedExclusion]) -> bool
    ensures { Finds (under shared.now.rows.now exclusions.now shared.now.lower) 0 shared.now.free result }
{
    if !reduced_met(exclusions, 0) {
        return false;
    }
    let job = Job {
        lower: shared.lower,
        first: Objective::Any,
        second: Objective::Any,
    };
    let query = Query {
        rows: shared.rows,
        exclusions,
        job,
    };
    let node = Node {
        free: shared.free,
        chosen: 0,
        carried: [0u64; 4],
    };
    some_step(&query, node, shared.turned)
}

// How many exclusions come before the first with which no set is left, where the first `low` leave one and the first
// `high` leave none.
fn before_blocking(
    shared: &Shared,
    exclusions: &[ReducedExclusion],
    low: usize,
    high: usize,
) -> usize
    requires { (low ≤ high) × (low < 32) × (high ≤ 32) × (high ≤ length exclusions.now) }
    ensures { (result < 32) × (Finds (under shared.now.rows.now (take low exclusions.now) shared.now.lower) 0 shared.now.free true
        → Finds (under shared.now.rows.now (take high exclusions.now) shared.now.lower) 0 shared.now.free false
        → Ends (λ n. Finds (under shared.now.rows.now (take n exclusions.now) shared.now.lower) 0 shared.now.free) high result) }
{
    if high <= low + 1 {
        return low;
    }
    let middle = low + (high - low) / 2;
    if left_with(shared, &exclusions[..middle]) {
        return before_blocking(shared, exclusions, middle, high);
    }
    before_blocking(shared, exclusions, low, middle)
}

// What is told of an exclusion, by the same one reduced: the members that stay counted whatever is put in for session
// k.
fn told_of(exclusion: Exclusion, reduced: ReducedExclusion) -> Blocking
    ensures { (l : Line) (k : ℕ) → ReducedBy exclusion reduced l k
        → some (blocking_of result) ≡ blocks l k (some exclusion) }
{
    Blocking {
        exclusion,
        counted: exclusion.members ^ reduced.members,
    }
}

// The first exclusion with which no set is left, of some in the order of the tidy image: where one is left without
// exclusions, and none with them all.
fn first_blocking(shared: &Shared, xs: &ExclusionTable, at: LineSession) -> Blocking
    ensures { (p : Policy) (u : ℕ) (x : Others) (upper own : ℕ) → own < 2 ^ 64
        → Asked p u x at.line at.session own (exclusions_of xs.now) (rows_of shared.now.rows.now)
        → Keeps (λ i. within (rows_of shared.now.rows.now i) upper) own shared.now.free
        → left (left_to p u x at.line at.session) at.line at.session (value shared.now.lower) upper [] ≡ true
        → left (left_to p u x at.line at.session) at.line at.session (value shared.now.lower) upper p.exclusions ≡ false
        → some (blocking_of result)
        ≡ blocks at.line at.session (blocking (left (left_to p u x at.line at.session) at.line at.session (value shared.now.lower) upper) [] p.exclusions) }
{
    let reduced = reduce(xs, at);
    let list = reduced.list();
    let j = before_blocking(shared, list, 0, reduced.count);
    told_of(xs.rows[j], reduced.rows[j])
}

// The first exclusion in the order of the tidy image with which no set is left, where one is left without exclusions;
// nothing where one is left with them all. That has nothing to do with their order, so they are sorted only where none
// is, and a single one is in order. What the searches share is made once: the roles that fit the upper bound, and those
// that carry each permission.
pub fn blocked(
    rows: &[[u64; 4]; 64],
    authorized: u64,
    xs: &ExclusionTable,
    at: LineSession,
    wanted: Wanted,
) -> Option<Blocking>
    ensures { (p : Policy) (u : ℕ) (x : Others)
        → Asked p u x at.line at.session authorized (exclusions_of xs.now) (rows_of rows.now)
        → left (left_to p u x at.line at.session) at.line at.session (value wanted.bounds.lower) (value wanted.bounds.upper) [] ≡ true
        → blocked_of result
        ≡ blocks at.line at.session (blocking (left (left_to p u x at.line at.session) at.line at.session (value wanted.bounds.lower)
        (value wanted.bounds.upper)) [] (sorted p.exclusions)) }
{
    let lower = wanted.bounds.lower;
    let reduced = reduce(xs, at);
    let list = reduced.list();
    let free = usable(rows, wanted.bounds.upper, authorized);
    let mut turned = [0u64; 256];
    join_carriers(&mut turned, rows, free, lower);
    let shared = Shared {
        rows,
        lower,
        free,
        turned: &turned,
    };
    if left_with(&shared, list) {
        return None;
    }
    if xs.count == 1 {
        return Some(told_of(xs.rows[0], reduced.rows[0]));
    }
    let ordered = sort(xs);
    Some(first_blocking(&shared, &ordered, at))
}
