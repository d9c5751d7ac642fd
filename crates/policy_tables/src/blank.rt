// Tables of zeros.
ghost use Rattle.policy_tables.specs.Held.{Blank};

use crate::PolicyTables;
use exclusion_rows::ExclusionTable;
use model::Head;

impl PolicyTables {
    // Tables of zeros.
    pub fn new() -> Self
        ensures { Blank result }
    {
        PolicyTables {
            head: Head::default(),
            authorized: [0; 64],
            granted: [[0; 4]; 64],
            below: [0; 64],
            limits: [0; 64],
            exclusions: ExclusionTable::new(),
        }
    }
}
