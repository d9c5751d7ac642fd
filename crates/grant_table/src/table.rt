// The closed grant table in bytes: 32 for each of 64 roles, with the permissions that the role carries.
ghost use Rattle.std.specs.Prelude.{◌≡◌, ◌≤◌, ◌++◌, length, drop, ◌*◌};
ghost use Rattle.model.specs.Policy.{Policy, below_table};
ghost use Rattle.model.specs.Ranges.{InRange};
ghost use Rattle.hierarchy.specs.Replies.{Replies};
ghost use Rattle.reasons.specs.Numbers.{refusal_of};
ghost use Rattle.sets.specs.Words.{values};
ghost use Rattle.grant_table_turned.specs.Turned.{joined};
ghost use Rattle.grant_table.specs.Table.{row_bytes};
ghost use Rattle.grant_table.specs.TableCalls.{table_on};

use hierarchy::reach::reach;
use model::Role;
use policy_tables::grants::Grants;
use reasons::{Reason, Refusal};

// The rows of the policy's roles, by its closed tables, from the first byte on.
fn put_rows(grants: &Grants, roles: u8, table: &mut [u8; 2048])
    requires { roles ≤ 64 }
    ensures { table.new
        ≡ joined (row_bytes (values grants.now.granted.now) grants.now.below.now) 0 roles ++ drop (32 * roles) table.old }
{
    // The number is the role that is asked about; no table is walked.
    for r in 0..roles {
        let row = sets::perm_union_at(grants.granted, reach(grants.below, Role(r)));
        octets::put_numbers(table, 32 * (r as usize), &row);
    }
}

// The closed grant table of a policy fills the buffer, where that has 2,048 bytes. Rows of other roles are zeros.
pub fn grant_table(grants: &Grants, roles: u8, table: &mut [u8]) -> Result<(), Refusal>
    requires { roles ≤ 64 }
    ensures { (p : Policy) → InRange p → values grants.now.granted.now ≡ p.granted → grants.now.below.now ≡ below_table p → p.head.roles ≡ roles
        → Replies (table_on p (length table.old)) (refusal_of result) table.old table.new }
{
    let whole = table.as_mut_array().ok_or(Reason::Room)?;
    *whole = [0; 2048];
    put_rows(grants, roles, whole);
    Ok(())
}
