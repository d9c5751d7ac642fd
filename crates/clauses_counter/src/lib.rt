// The hard clauses of the exclusions of an ask.
#![tactic(auto)]

pub mod counter; // counter.rt: exclusions
