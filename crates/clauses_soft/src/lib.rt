// The soft clauses of an ask: their text, how many there are, and the weight of a hard clause, which is above all of
// them together.
#![tactic(auto)]

pub mod soft; // soft.rt: objectives
pub mod sizes; // sizes.rt: how many soft clauses there are, and the weight of a hard one
