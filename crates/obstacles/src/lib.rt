// What stands in the way of an ask, on a line that meets every exclusion: the first of the four kinds that holds.
#![tactic(auto)]

ghost use Rattle.std.specs.Prelude.{◌≡◌, ℕ};
ghost use Rattle.model.specs.Policy.{Policy, meaning};
ghost use Rattle.model.specs.Limits.{Others};
ghost use Rattle.model.specs.Obstacle.{obstacle_of};
ghost use Rattle.sets.specs.Words.{value, values};
ghost use Rattle.exclusion_rows.specs.Table.{exclusions_of};
ghost use Rattle.obstacles_lacks.specs.Founds.{found_of};
ghost use Rattle.obstacles.specs.Asking.{Asking};

use asks_request::request::Wanted;
use exclusion_rows::ExclusionTable;
use obstacles_blocks::blocked;
use obstacles_lacks::found::Obstacle;
use obstacles_lacks::roles::lacked_by_any;
use policy_tables::grants::Grants;
use query_reduced::line_session::LineSession;
use tables_rows::carried::fill_carried;

// The roles that the user may activate, and those of them that no limit bars.
#[derive(Clone, Copy)]
pub struct Roles {
    pub own: u64,
    pub free: u64,
}

// The first kind that holds: the user's roles lack a permission of the lower bound, those that fit the upper bound lack
// one, those that fit and are not barred lack one, an exclusion, in the order of the tidy image, leaves no set.
pub fn obstacle(
    grants: &Grants,
    xs: &ExclusionTable,
    at: LineSession,
    roles: Roles,
    wanted: Wanted,
) -> Option<Obstacle>
    ensures { (p : Policy) (u : ℕ) (x : Others)
        → Asking p u x at.line at.session (values grants.now.granted.now) grants.now.below.now roles.own roles.free
        (exclusions_of xs.now)
        → found_of result ≡ obstacle_of (meaning p u) x at.line at.session (value wanted.bounds.lower) (value wanted.bounds.upper) }
{
    let own = roles.own;
    let free = roles.free;
    let mut rows = [[0u64; 4]; 64];
    fill_carried(grants, own, &mut rows);
    let lower = wanted.bounds.lower;
    let upper = wanted.bounds.upper;
    match lacked_by_any(&rows, own, free, lower, upper, grants) {
        Some(found) => Some(found),
        None => {
            let exclusion = blocked(&rows, free, xs, at, wanted)?;
            Some(Obstacle::Exclusion(exclusion))
        }
    }
}
