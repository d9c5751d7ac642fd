// A search that ends with the first set. Where an obstacle is looked for, only whether some set is admissible is asked,
// and none is ranked.
ghost use Rattle.sets.specs.Words.{value};
ghost use Rattle.query.specs.Carry.{rows_of, Turned};
ghost use Rattle.search_steps.specs.Search.{task_of, Ready};
ghost use Rattle.obstacles_blocks.specs.Firsts.{Finds};

use model::Role;
use query::carry::missing;
use query_rank::Node;
use query_reduced::met::reduced_met;
use search_steps::Query;

// Some set of the chosen roles and some of the free ones carries the lower bound and meets the exclusions.
// A permission that is asked for and not carried is taken up, and the roles that carry it are tried; one that was tried
// is barred from what is tried after it.
pub fn some_step(query: &Query, node: Node, turned: &[u64; 256]) -> bool
    requires { (Ready (task_of query.now) node.chosen (value node.carried))
        × (Turned (rows_of query.now.rows.now) turned.now (value query.now.job.lower) node.free) }
    ensures { Finds (task_of query.now) node.chosen node.free result }
{
    let Some(p) = missing(query.job.lower, node.carried) else {
        return true;
    };
    let tries = sets::inter(node.free, turned[p.0 as usize]);
    let mut still = node.free;
    for k in sets::members(tries) {
        let role = Role(k);
        let less = sets::without(still, role);
        let more = sets::with(node.chosen, role);
        still = less;
        if !reduced_met(query.exclusions, more) {
            continue;
        }
        let below = Node {
            free: less,
            chosen: more,
            carried: sets::perm_union(node.carried, query.rows[k as usize]),
        };
        if some_step(query, below, turned) {
            return true;
        }
    }
    false
}
