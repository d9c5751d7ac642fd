// The lowest permission of the lower bound that roles lack.
ghost use Rattle.std.specs.Prelude.{◌≡◌};
ghost use Rattle.model.specs.Policy.{Meaning};
ghost use Rattle.model.specs.Obstacle.{lacking as lacking_of};
ghost use Rattle.sets.specs.Words.{value};
ghost use Rattle.query.specs.Carry.{rows_of, number_of, Carry};

use model::Permission;
use query::carry::{carried_by, missing};

// The lowest permission of the lower bound that no role of the set carries.
pub fn lacking(rows: &[[u64; 4]; 64], set: u64, lower: [u64; 4]) -> Option<Permission>
    ensures { (m : Meaning) → Carry m set (rows_of rows.now) → number_of result ≡ lacking_of m (value lower) set }
{
    missing(lower, carried_by(rows, set))
}
