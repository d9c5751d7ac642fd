// What takes in the permissions that an image grants, in a run over its usual words.
ghost use Rattle.std.specs.Prelude.{◌≡◌, ℕ, ◌<◌, List, []};
ghost use Rattle.model.specs.declared.Entry.{Entry as EntryOf};
ghost use Rattle.model.specs.declared.Entry.TheVariants.{Grant};
ghost use Rattle.model.specs.Image.{role, permission};
ghost use Rattle.model.specs.Policy.{granting};
ghost use Rattle.sets.specs.Words.{values};
ghost use Rattle.image_usual.specs.Usual.{Ungranting};
ghost use Rattle.image_usual.specs.Granting.{granting_none, nothing_none};

use model::{Permission, Role};

// A usual grant: the permission, to the role.
#[derive(Clone, Copy)]
pub struct UsualGrant {
    pub role: Role,
    pub permission: Permission,
}

// What takes in grants: the rows that it has, and what a word leaves of them.
pub trait TakesGrants {
    ghost rows: { Self → List ℕ };

    ghost step: { List ℕ → EntryOf → List ℕ };

    fn take(&mut self, grant: UsualGrant)
        requires { (grant.role.0 < 64) × (grant.permission.0 < 256) }
        ensures { rows self.new ≡ step (rows self.old) (Grant (role grant.role.0) (permission grant.permission.0)) };

    ghost ungranting: { Ungranting step };
}

// A check of an image takes no grant in.
#[derive(Clone, Copy)]
pub struct NoGrants;

impl TakesGrants for NoGrants {
    ghost rows = { λ _. [] };

    ghost step = { λ rows e. rows };

    ghost ungranting = { nothing_none };

    fn take(&mut self, _grant: UsualGrant) {}
}

// The permissions granted to each role.
impl TakesGrants for [[u64; 4]; 64] {
    ghost rows = { values };

    ghost step = { granting };

    ghost ungranting = { granting_none };

    fn take(&mut self, grant: UsualGrant) {
        sets::perm_put(self, grant.role, grant.permission);
    }
}
