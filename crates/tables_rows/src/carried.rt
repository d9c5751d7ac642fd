// What roles carry: the granted rows joined by the closed table of juniors, for the roles that are asked for.
ghost use Rattle.std.specs.Prelude.{◌≡◌};
ghost use Rattle.model.specs.Sets.{union_at};
ghost use Rattle.sets.specs.Words.{value, values};
ghost use Rattle.tables_rows.specs.Carried.{blank, carried_rows, carried_of};

use hierarchy::reach::{reach, reached_by};
use model::Role;
use policy_tables::grants::Grants;

// What each role of `wanted` carries goes into its row of an empty table: the permissions granted to the roles that it
// reaches by the closed table.
pub fn fill_carried(grants: &Grants, wanted: u64, out: &mut [[u64; 4]; 64])
    requires { out.old ≡ blank }
    ensures { values out.new ≡ carried_rows (values grants.now.granted.now) grants.now.below.now wanted }
{
    for k in sets::members(wanted) {
        out[k as usize] = sets::perm_union_at(grants.granted, reach(grants.below, Role(k)));
    }
}

// The table of what each role of `wanted` carries, as a value. An obstacle fills its own: it copies 2 KB less.
pub fn carried(grants: &Grants, wanted: u64) -> [[u64; 4]; 64]
    ensures { values result ≡ carried_rows (values grants.now.granted.now) grants.now.below.now wanted }
{
    let mut out = [[0u64; 4]; 64];
    fill_carried(grants, wanted, &mut out);
    out
}

// What the roles of a set carry, by the closed table: the grants of all that they reach, joined. A permission is in it
// exactly if a role of the set has a granting role of it (the model's `shown-named`).
pub fn carried_by(grants: &Grants, set: u64) -> [u64; 4]
    ensures { value result ≡ union_at (carried_of (values grants.now.granted.now) grants.now.below.now) set }
{
    let reached = reached_by(grants.below, set);
    sets::perm_union_at(grants.granted, reached)
}
