// By the closed table of juniors: the roles that a role or a set of roles reaches, and through which of them a grant
// comes to a role.
ghost use Rattle.std.specs.Prelude.{◌≡◌, get_or, ◌<◌};
ghost use Rattle.model.specs.Sets.{has, union_at};
ghost use Rattle.model.specs.Policy.{with_selves, granter_by};
ghost use Rattle.hierarchy.specs.Names.{name_of};

use model::Role;

// The roles that role r reaches: itself and those of its row.
pub fn reach(below: &[u64; 64], r: Role) -> u64
    requires { r.0 < 64 }
    ensures { result ≡ get_or (with_selves below.now) r.0 0 }
{
    let who = r.0 as usize;
    sets::with(below[who], r)
}

// The roles that the roles of a set reach. `sets::perm_union_at` joins rows alone, and of four words each.
pub fn reached_by(below: &[u64; 64], set: u64) -> u64
    ensures { result ≡ union_at (with_selves below.now) set }
{
    let mut all: u64 = 0;
    for k in sets::members(set) {
        all = sets::union(all, reach(below, Role(k)));
    }
    all
}

// The granting role of a permission for role r, by the roles that hold its grant: the lowest that r reaches, itself
// among them. There is one exactly if role r carries the permission.
pub fn granter(below: &[u64; 64], holding: u64, r: Role) -> Option<Role>
    requires { r.0 < 64 }
    ensures { name_of result ≡ granter_by (with_selves below.now) (has holding) r.0 }
{
    let both = sets::inter(reach(below, r), holding);
    let lowest = sets::members(both).next()?;
    Some(Role(lowest))
}
