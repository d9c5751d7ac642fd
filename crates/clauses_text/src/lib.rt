// The text of an ask's clauses for an outside solver, put into a buffer from a place on: the head, then all clauses.
#![tactic(auto)]

pub mod whole; // whole.rt: the head, all clauses, and the whole text
