// The variables of a clause text: role r is variable r + 1, permission q is R + q + 1 under R roles, and the helpers of
// the exclusions follow.
ghost use Rattle.std.specs.Prelude.{◌≡◌, ◌+◌, ◌≤◌};
ghost use Rattle.model.specs.Clauses.{role_variable};

use model::{Permission, Role};

// The variable of a role.
pub fn role_variable(r: Role) -> usize
    ensures { result ≡ role_variable r.0 }
{
    r.0 as usize + 1
}

// The variables that are no helpers, by how many roles and permissions there are.
#[derive(Clone, Copy)]
pub struct Variables {
    pub roles: usize,
    pub permissions: usize,
    ghost few_roles: { roles ≤ 64 },
    ghost few_permissions: { permissions ≤ 256 },
}

impl Variables {
    // The variable of a permission.
    pub fn permission(self, q: Permission) -> usize
        ensures { result ≡ self.roles + q.0 + 1 }
    {
        self.roles + q.0 as usize + 1
    }

    // The last one that is no helper.
    pub fn last_plain(self) -> usize
        ensures { (result ≡ self.roles + self.permissions) × (result ≤ 320) }
    {
        self.roles + self.permissions
    }
}
