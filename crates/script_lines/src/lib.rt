// A line of a script cut into its words.
#![tactic(auto)]

pub mod lines;
