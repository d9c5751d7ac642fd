// The lines of a script answered in buffers, from the chunks in which it is read.
#![tactic(auto)]

pub mod lines;
