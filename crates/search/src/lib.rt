// The choice of a role set (the User Authorization Query): `solve`, by the two searches.
#![tactic(auto)]

ghost use Rattle.std.specs.Prelude.{◌≡◌, true, ℕ};
ghost use Rattle.model.specs.declared.Line.{Line};
ghost use Rattle.model.specs.Policy.{Meaning};
ghost use Rattle.model.specs.Choice.{choose};
ghost use Rattle.sets.specs.Words.{value};
ghost use Rattle.query_reduced.specs.Met.{reduced_met as reduced_met_of};
ghost use Rattle.query_rank.specs.Objectives.{Stands};
ghost use Rattle.query.specs.Carry.{rows_of};
ghost use Rattle.search_steps.specs.Search.{FoundFor};
ghost use Rattle.search.specs.Answer.{answered, answer_of, no_best, Given};

use query::carriers::join_carriers;
use query::carry::{reach, usable};
use query_rank::objective::Objective;
use query_rank::{Best, NONE, Node};
use query_reduced::met::reduced_met;
use search_steps::{Query, first_step, subset_step};

// The roles of the best set, where there is one.
fn answer(best: Best) -> Option<u64>
    ensures { result ≡ answer_of best }
{
    if best.key == NONE {
        return None;
    }
    Some(best.roles)
}

// The best set of free roles, from the empty set, which meets the exclusions: Procedure 3 unless an objective
// is the most.
fn best_of(query: &Query, free: u64) -> Best
    requires { reduced_met_of query.now.exclusions.now 0 ≡ true }
    ensures { FoundFor query.now 0 free no_best result }
{
    let none = Best {
        key: NONE,
        roles: 0,
    };
    let root = Node {
        free,
        chosen: 0,
        carried: [0; 4],
    };
    if query.job.first != Objective::Most && query.job.second != Objective::Most {
        let mut turned = [0; 256];
        join_carriers(&mut turned, query.rows, free, query.job.lower);
        return first_step(query, root, none, &turned);
    }
    let from = reach(query.rows, free);
    subset_step(query, &from, root, none)
}

// The best admissible role set, of the roles that the user may activate: at least the lower bound, nothing outside the
// upper, and each exclusion met; the best by each two numbers that stand for the objectives.
pub fn solve(query: &Query, upper: [u64; 4], authorized: u64) -> Option<u64>
    ensures { (m : Meaning) (l : Line) (k first second : ℕ)
        → Stands query.now.job.first first
        → Stands query.now.job.second second
        → Given m l k authorized (rows_of query.now.rows.now) (reduced_met_of query.now.exclusions.now)
        → answered result ≡ choose m l k (value query.now.job.lower) (value upper) first second }
{
    if !reduced_met(query.exclusions, 0) {
        return None;
    }
    let free = usable(query.rows, upper, authorized);
    answer(best_of(query, free))
}
