// The steps of the two searches for a role set. Each is given the roles chosen so far with what they carry, the roles
// still free, and the best set so far. Which roles carry a wanted permission is read off the turned table.
#![tactic(auto)]

ghost use Rattle.std.specs.Prelude.{◌≡◌, false};
ghost use Rattle.model.specs.Sets.{within};
ghost use Rattle.sets.specs.Words.{value};
ghost use Rattle.query.specs.Carry.{rows_of, Sub, Reaches};
ghost use Rattle.search_steps.specs.Search.{task_of, Ready, Steps, Found, Tried, FoundFor};

use model::Role;
use query::carry::missing;
use query_rank::{Best, Job, Node, fewest, judged, no_worse, rank_of, settled};
use query_reduced::met::reduced_met;
use query_reduced::reduced::ReducedExclusion;

// What is searched: what each role carries, the reduced exclusions, and what is asked.
#[derive(Clone, Copy)]
pub struct Query<'a> {
    pub rows: &'a [[u64; 4]; 64],
    pub exclusions: &'a [ReducedExclusion],
    pub job: Job,
}

// 003's Procedure 3: a permission that is asked for and not carried is taken up, and the roles that carry it are tried.
#[cycle(permission_step_role_step)]
pub fn permission_step(query: &Query, node: Node, best: Best, turned: &[u64; 256]) -> Best
    requires { Steps (task_of query.now) turned.now node }
    ensures { within (value query.now.job.lower) (value node.carried) ≡ false
        → Found (task_of query.now) node.chosen node.free best result }
{
    let Some(p) = missing(query.job.lower, node.carried) else {
        return best;
    };
    let tries = sets::inter(node.free, turned[p.0 as usize]);
    role_step(query, tries, node, best, turned)
}

// The roles of tries are tried. One that was tried is barred from what is tried after it. A set that is no better than
// the best so far is given up, since a larger one is no better than it: most are, so that a set is judged before a step
// is made from it.
#[cycle(permission_step_role_step)]
pub fn role_step(query: &Query, tries: u64, node: Node, best: Best, turned: &[u64; 256]) -> Best
    requires { (Steps (task_of query.now) turned.now node) × (Sub tries node.free) }
    ensures { Tried (task_of query.now) tries node.chosen node.free best result }
{
    let mut still = node.free;
    let mut found = best;
    for k in sets::members(tries) {
        let role = Role(k);
        let less = sets::without(still, role);
        let more = sets::with(node.chosen, role);
        still = less;
        if !reduced_met(query.exclusions, more) {
            continue;
        }
        let sum = sets::perm_union(node.carried, query.rows[k as usize]);
        let better = rank_of(query.job, more, sum);
        if no_worse(found, better) {
            continue;
        }
        if sets::perm_within(query.job.lower, sum) {
            found = better;
            continue;
        }
        let below = Node {
            free: less,
            chosen: more,
            carried: sum,
        };
        found = permission_step(query, below, found, turned);
    }
    found
}

// The first step of Procedure 3: the chosen roles are judged, and a permission is taken up where they lack one.
pub fn first_step(query: &Query, node: Node, best: Best, turned: &[u64; 256]) -> Best
    requires { Steps (task_of query.now) turned.now node }
    ensures { Found (task_of query.now) node.chosen node.free best result }
{
    let better = rank_of(query.job, node.chosen, node.carried);
    if no_worse(best, better) {
        return best;
    }
    if sets::perm_within(query.job.lower, node.carried) {
        return better;
    }
    permission_step(query, node, best, turned)
}

// Every set that has the chosen roles and some of the free ones: with the lowest where the exclusions are met, and
// then without it. They are given up where none of them can be better than the best so far, by `reach`: what the free
// roles carry from each role on.
pub fn subset_step(query: &Query, reach: &[[u64; 4]; 64], node: Node, best: Best) -> Best
    requires { (Ready (task_of query.now) node.chosen (value node.carried))
        × (Reaches (rows_of query.now.rows.now) (rows_of reach.now) node.free) }
    ensures { FoundFor query.now node.chosen node.free best result }
{
    let permissions = fewest(query.job.first, node.carried);
    let roles = fewest(query.job.second, node.chosen);
    // The node with the roles that may still join.
    let mut rest = node;
    let mut found = best;
    for k in sets::members(node.free) {
        let role = Role(k);
        let top = sets::perm_union(node.carried, reach[k as usize]);
        if settled(query.job, rest, permissions, roles, top, found) {
            return found;
        }
        rest.free = sets::without(rest.free, role);
        let wider = sets::with(node.chosen, role);
        if !reduced_met(query.exclusions, wider) {
            continue;
        }
        let below = Node {
            free: rest.free,
            chosen: wider,
            carried: sets::perm_union(node.carried, query.rows[k as usize]),
        };
        found = subset_step(query, reach, below, found);
    }
    judged(query.job, node, found)
}
