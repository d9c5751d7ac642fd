// Through which roles a set of roles carries a permission: the lowest that has a granting role, and that one.
ghost use Rattle.std.specs.Prelude.{◌≡◌, get_or, ◌<◌, IfSome};
ghost use Rattle.model.specs.Sets.{has};
ghost use Rattle.model.specs.Policy.{with_selves, granter_by};
ghost use Rattle.model.specs.Session.{explanation};
ghost use Rattle.sets.specs.Words.{values};
ghost use Rattle.hierarchy.specs.Names.{found_of};

use crate::holding::holders;
use hierarchy::reach::granter;
use model::{Permission, Role};
use policy_tables::grants::Grants;

// The lowest role of a set that carries a permission and its granting role, by the closed table and the roles that hold
// its grant: 64 times the one plus the other.
fn first_carrier(below: &[u64; 64], holding: u64, set: u64) -> Option<u64>
    ensures { (found_of result ≡ explanation (granter_by (with_selves below.now) (has holding)) set)
        × IfSome result (λ e. e < 4096) }
{
    for k in sets::members(set) {
        if let Some(by) = granter(below, holding, Role(k)) {
            return Some(64 * (k as u64) + (by.0 as u64));
        }
    }
    None
}

// Through which roles a set carries the permission p, by the closed table: 64 times the lowest that carries it plus its
// granting role; none where none carries it.
pub fn explain(grants: &Grants, set: u64, p: Permission) -> Option<u64>
    ensures { (found_of result ≡ explanation (granter_by (with_selves grants.now.below.now) (λ g. has (get_or (values grants.now.granted.now) g 0) p.0)) set)
        × IfSome result (λ e. e < 4096) }
{
    first_carrier(grants.below, holders(grants.granted, p), set)
}
