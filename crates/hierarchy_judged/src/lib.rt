// An image judged by what its words mean together: refused by 22 for a loop of senior words, by 23 for a user who
// reaches too many roles.
#![tactic(auto)]

pub mod authorized; // authorized.rt: the roles that users may activate
pub mod loops; // loops.rt: the lowest role on a loop, and the judgement
