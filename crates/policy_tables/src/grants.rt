// What is granted to roles, and who is below whom.
ghost use Rattle.std.specs.Prelude.{◌≡◌};

use crate::PolicyTables;

// The permissions granted to each role, and the roles below each role.
#[derive(Clone, Copy)]
pub struct Grants<'a> {
    pub granted: &'a [[u64; 4]; 64],
    pub below: &'a [u64; 64],
}

impl PolicyTables {
    // Those of the policy, lent.
    pub fn grants(&self) -> Grants<'_>
        ensures granted { result.granted.now ≡ self.now.granted }
        ensures below { result.below.now ≡ self.now.below }
    {
        Grants {
            granted: &self.granted,
            below: &self.below,
        }
    }
}
