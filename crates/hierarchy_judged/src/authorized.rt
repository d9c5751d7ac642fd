// The roles that users may activate, by the closed table: those assigned, and those that they reach. A user may have at
// most 16.
ghost use Rattle.std.specs.Prelude.{◌≡◌, ◌≤◌};
ghost use Rattle.model.specs.Sets.{set_of, union_at};
ghost use Rattle.model.specs.Policy.{with_selves};
ghost use Rattle.hierarchy.specs.Names.{found_of};
ghost use Rattle.hierarchy_judged.specs.Reach.{stands_over, Over, Few, Authorizes};

use hierarchy::reach::reached_by;

// Those of so many roles that stand over another.
fn seniors_in(below: &[u64; 64], roles: usize) -> u64
    requires { roles ≤ 64 }
    ensures { result ≡ set_of (stands_over below.now) roles }
{
    sets::set_of(roles, |r| below[r] != 0)
}

// What a set of roles reaches: where none of them stands over another, the set itself.
fn reach_of(below: &[u64; 64], seniors: u64, set: u64) -> u64
    requires { Over below.now seniors set }
    ensures { result ≡ union_at (with_selves below.now) set }
{
    if set & seniors == 0 {
        return set;
    }
    reached_by(below, set)
}

// The roles assigned to each of so many users become those that the user may activate. The lowest user who may activate
// more than 16, if one may. Where no role stands over another, the table is right as it is.
pub fn authorize(
    below: &[u64; 64],
    roles: usize,
    users: usize,
    assigned: &mut [u64; 64],
) -> Option<usize>
    requires { (roles ≤ 64) × (users ≤ 64) × Few roles assigned.old }
    ensures { Authorizes below.now users assigned.old (found_of result) assigned.new }
{
    let seniors = seniors_in(below, roles);
    if seniors == 0 {
        return None;
    }
    for (u, row) in assigned[..users].iter_mut().enumerate() {
        let reached = reach_of(below, seniors, *row);
        if 16 < sets::size(reached) {
            return Some(u);
        }
        *row = reached;
    }
    None
}
