// A word of a policy image judged and, where it has no fault, taken into the tables.
#![tactic(auto)]

pub mod take; // take.rt: a function for each kind of word, and one for all
