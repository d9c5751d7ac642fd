// How role sets rank: by a key made of the two objectives' costs, of which the lower is better, then by the lower set
// number.
#![tactic(auto)]

ghost use Rattle.std.specs.Prelude.{◌≡◌, true, ℕ, leb};
ghost use Rattle.model.specs.Sets.{union as union_of, count};
ghost use Rattle.sets.specs.Words.{value};
ghost use Rattle.query_rank.specs.declared.objective.Objective.TheVariants.{Fewest as FewestOf};
ghost use Rattle.query_rank.specs.Objectives.{number_of};
ghost use Rattle.query_rank.specs.Ranks.{least_of, Costs, rank_at, Judged, Ranked, Settled};

pub mod objective; // objective.rt: what is asked of how many permissions are carried, and of how many roles are chosen

use crate::objective::Objective;
use sets::counted::Counted;

// A role set with its key. Sets are ordered by their keys and then by their numbers: the lower is better.
#[derive(Clone, Copy, PartialEq, Eq, PartialOrd, Ord)]
pub struct Best {
    pub key: u64,
    pub roles: u64,
}

// The key of no set, above that of any. With an Option<Best> an ask for the most permissions without exclusions takes
// 1.09 of the instructions: beside the walk by `for` in `subset_step`, which takes 1.03, that is over a tenth.
pub const NONE: u64 = 1048576;

// What is asked: the lower bound, and the objectives for permissions and then for roles.
#[derive(Clone, Copy)]
pub struct Job {
    pub lower: [u64; 4],
    pub first: Objective,
    pub second: Objective,
}

// A node of a search: the roles still free, the roles chosen so far, and the permissions that these carry.
#[derive(Clone, Copy)]
pub struct Node {
    pub free: u64,
    pub chosen: u64,
    pub carried: [u64; 4],
}

// What the objective counts at least of any set that has the members of this one: their number where it is the fewest.
pub fn fewest<S: Counted>(objective: Objective, set: S) -> u32
    ensures { objective ≡ FewestOf → result ≡ count S.top (S.as_set set) }
{
    if objective == Objective::Fewest {
        return set.size();
    }
    0
}

// What an objective makes at least of a set that has certain members, of which it counts `fewest`, and none outside
// top. Members are counted where the number is used, so that the compiler counts the four words
// of a permission set side by side.
fn least<S: Counted>(objective: Objective, fewest: u32, top: S) -> u32
    ensures { result ≡ least_of objective fewest (count S.top (S.as_set top)) }
{
    match objective {
        Objective::Any => 0,
        Objective::Fewest => fewest,
        Objective::Most => 256 - top.size(),
    }
}

// What an objective makes of the number of a set's members, of a set that has these and no others: the lower, the
// better.
fn cost<S: Counted>(objective: Objective, set: S) -> u32
    ensures { Costs (number_of objective) (count S.top (S.as_set set)) result }
{
    least(objective, fewest(objective, set), set)
}

// The chosen roles with their key, where they carry these permissions.
pub fn rank_of(job: Job, chosen: u64, carried: [u64; 4]) -> Best
    ensures { Ranked job chosen (value carried) result }
{
    let first = cost(job.first, carried) as u64;
    let second = cost(job.second, chosen) as u64;
    Best {
        key: first * 512 + second,
        roles: chosen,
    }
}

// The best so far is no worse than this set.
pub fn no_worse(best: Best, next: Best) -> bool
    ensures { result ≡ leb (rank_at best) (rank_at next) }
{
    best <= next
}

// The chosen roles, where they carry the lower bound and are better than the best so far; else that.
pub fn judged(job: Job, node: Node, best: Best) -> Best
    ensures { Judged job node.chosen (value node.carried) best result }
{
    if !sets::perm_within(job.lower, node.carried) {
        return best;
    }
    let next = rank_of(job, node.chosen, node.carried);
    if no_worse(best, next) {
        return best;
    }
    next
}

// No set of a node's chosen roles and some of its free ones that carries the permissions carried, none outside top and
// all of the lower bound is better than the best so far: top lacks some of the bound, or their least key and the lowest
// set number, that of the chosen roles alone, are no better. The objectives count so many of the permissions carried
// and of the chosen roles where they are the fewest: `settled` is called for one such node after the other, and these
// are the same for all.
pub fn settled(
    job: Job,
    node: Node,
    permissions: u32,
    roles: u32,
    top: [u64; 4],
    best: Best,
) -> bool
    ensures { result ≡ true → (carried : ℕ) → (job.first ≡ FewestOf → permissions ≡ count 256 carried)
        → (job.second ≡ FewestOf → roles ≡ count 64 node.chosen)
        → Settled job node.chosen node.free carried (value top) best }
{
    if !sets::perm_within(job.lower, top) {
        return true;
    }
    let first = least(job.first, permissions, top) as u64;
    let second = least(job.second, roles, sets::union(node.chosen, node.free)) as u64;
    let lowest = Best {
        key: first * 512 + second,
        roles: node.chosen,
    };
    no_worse(best, lowest)
}
