// The roles that hold the grant of a permission, by the granted rows.
ghost use Rattle.std.specs.Prelude.{◌≡◌};
ghost use Rattle.sets.specs.Words.{values};
ghost use Rattle.tables_rows.specs.Holding.{holders_of};

use model::Permission;

// The roles to which a grant gives the permission p.
pub fn holders(granted: &[[u64; 4]; 64], p: Permission) -> u64
    ensures { result ≡ holders_of (values granted.now) p.0 }
{
    sets::set_of(64, |r| sets::perm_has(granted[r], p))
}
