// Seniority by the table of direct juniors: the table closed, and who is reached by it.
#![tactic(auto)]

pub mod closure; // closure.rt: the table closed by Warshall's rule
pub mod reach; // reach.rt: the roles that roles reach, and the granting role among them
