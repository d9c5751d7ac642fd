// The answers to the lines in a chunk of a script counted by their numbers, and the counts written into a buffer.
#![tactic(auto)]

pub mod counts;
