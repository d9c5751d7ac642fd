// What the tables of a policy say of roles: what they carry, who holds a grant, and through which roles a set carries a
// permission.
#![tactic(auto)]

pub mod carried; // carried.rt: what roles carry
pub mod explain; // explain.rt: through which roles a set carries a permission
pub mod holding; // holding.rt: the roles that hold the grants of permissions
