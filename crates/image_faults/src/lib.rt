// The faults of a word behind the head, by the words before it.
#![tactic(auto)]

pub mod fault; // fault.rt: a function for each kind of word
