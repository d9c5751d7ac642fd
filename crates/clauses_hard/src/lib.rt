// The other hard clauses of an ask, and how many hard clauses and helpers there are.
#![tactic(auto)]

pub mod question; // question.rt: what is asked
pub mod members; // members.rt: the members of permission sets, from one to the next
pub mod carries; // carries.rt: own roles, what roles carry, the bounds
pub mod sizes; // sizes.rt: how many helpers and hard clauses there are
