// The tables of a policy: what every call under an accepted image goes by.
#![tactic(auto)]

pub mod blank; // blank.rt: tables of zeros
pub mod grants; // grants.rt: what is granted to roles, and who is below whom

ghost use Rattle.std.specs.Prelude.{◌≤◌};

use exclusion_rows::ExclusionTable;
use model::Head;

// The numbers of an accepted policy's head, the roles that each user may activate, the permissions granted to each
// role, the roles below each role, the limit of each role and the exclusions. A row of a table is a user or a role. A
// role without a limit has 0, as in the definition `limits`, so that one join of all rows tells whether some role has.
#[derive(Clone, Copy)]
pub struct PolicyTables {
    pub head: Head,
    pub authorized: [u64; 64],
    pub granted: [[u64; 4]; 64],
    pub below: [u64; 64],
    pub limits: [u64; 64],
    pub exclusions: ExclusionTable,
    ghost fits: { head.users ≤ 64 },
}
