// The kinds 1 to 3 of an obstacle: a permission of the lower bound that no role gives, with the roles that would give
// it but for this kind.
ghost use Rattle.std.specs.Prelude.{◌≡◌, true, ℕ, ◌^◌, ◌<◌};
ghost use Rattle.model.specs.declared.Line.{Line};
ghost use Rattle.model.specs.Tests.{or_else};
ghost use Rattle.model.specs.Sets.{has, within};
ghost use Rattle.model.specs.Policy.{Policy, Meaning, below_table, meaning};
ghost use Rattle.model.specs.Limits.{Others, unbarred};
ghost use Rattle.model.specs.Obstacle.{lacking as lacking_of, carriers_of, lacks};
ghost use Rattle.sets.specs.Words.{value, values};
ghost use Rattle.query.specs.Carry.{rows_of, Carry};
ghost use Rattle.obstacles_lacks.specs.Founds.{found_of, lacks_of, own_lacks, upper_lacks, limit_lacks};

use crate::found::{Lack, Obstacle};
use crate::lacking::lacking;
use model::Permission;
use policy_tables::grants::Grants;
use query::carry::usable;
use tables_rows::carried::carried;
use tables_rows::holding::holders;

// The roles of a set that carry the permission p.
fn carriers_in(rows: &[[u64; 4]; 64], set: u64, p: Permission) -> u64
    ensures { (m : Meaning) → Carry m set (rows_of rows.now) → result ≡ carriers_of m (has set) p.0 }
{
    sets::inter(set, holders(rows, p))
}

// The lowest permission of the lower bound that roles lack, told with those of a larger set that carry it.
fn lacked(rows: &[[u64; 4]; 64], all: u64, some: u64, lower: [u64; 4]) -> Option<Lack>
    ensures { (m : Meaning) (kind : ℕ) → Carry m all (rows_of rows.now) → within some all ≡ true
        → lacks_of kind result ≡ lacks kind (carriers_of m (has all)) (lacking_of m (value lower) some) }
{
    let permission = lacking(rows, some, lower)?;
    let roles = carriers_in(rows, all, permission);
    Some(Lack { permission, roles })
}

// The lowest permission of the lower bound that the user's roles lack, told with all roles that carry it.
fn lacked_by_own(rows: &[[u64; 4]; 64], own: u64, lower: [u64; 4], grants: &Grants) -> Option<Lack>
    ensures { (p : Policy) (u : ℕ) → values grants.now.granted.now ≡ p.granted → grants.now.below.now ≡ below_table p
        → Carry (meaning p u) own (rows_of rows.now)
        → lacks_of 1 result ≡ lacks 1 (carriers_of (meaning p u) (λ r. true)) (lacking_of (meaning p u) (value lower) own) }
{
    let permission = lacking(rows, own, lower)?;
    let every = 18446744073709551615u64;
    let table = carried(grants, every);
    let roles = carriers_in(&table, every, permission);
    Some(Lack { permission, roles })
}

// Of the user's roles those that fit the upper bound lack a permission, or those of them that are free (not barred).
fn lacked_within(
    rows: &[[u64; 4]; 64],
    own: u64,
    free: u64,
    lower: [u64; 4],
    upper: [u64; 4],
) -> Option<Obstacle>
    ensures { (m : Meaning) (x : Others) (l : Line) (k : ℕ) → m.authorized ≡ own → (unbarred m x l k).authorized ≡ free
        → Carry m own (rows_of rows.now)
        → found_of result ≡ or_else (upper_lacks m (value lower) (value upper)) (limit_lacks m x l k (value lower) (value upper)) }
{
    let fit = usable(rows, upper, own);
    match lacked(rows, own, fit, lower) {
        Some(lack) => Some(Obstacle::Upper(lack)),
        None => {
            let left = usable(rows, upper, free);
            let lack = lacked(rows, fit, left, lower)?;
            Some(Obstacle::Limits(lack))
        }
    }
}

// The first of the three kinds of a lack that holds. The roles of each are among those of the one before, so none holds
// where those of the third lack nothing, and that is looked at first.
pub fn lacked_by_any(
    rows: &[[u64; 4]; 64],
    own: u64,
    free: u64,
    lower: [u64; 4],
    upper: [u64; 4],
    grants: &Grants,
) -> Option<Obstacle>
    ensures { (own < 2 ^ 64) × (value lower < 2 ^ 256) × ((p : Policy) (u : ℕ) (x : Others) (l : Line) (k : ℕ)
        → values grants.now.granted.now ≡ p.granted → grants.now.below.now ≡ below_table p → (meaning p u).authorized ≡ own
        → (unbarred (meaning p u) x l k).authorized ≡ free → Carry (meaning p u) own (rows_of rows.now)
        → found_of result ≡ or_else (own_lacks (meaning p u) (value lower))
        (or_else (upper_lacks (meaning p u) (value lower) (value upper)) (limit_lacks (meaning p u) x l k (value lower) (value upper)))) }
{
    let least = usable(rows, upper, free);
    lacking(rows, least, lower)?;
    match lacked_by_own(rows, own, lower, grants) {
        Some(lack) => Some(Obstacle::Own(lack)),
        None => lacked_within(rows, own, free, lower, upper),
    }
}
