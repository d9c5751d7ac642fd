// The order of exclusions in the tidy image.
#![tactic(auto)]

pub mod sort; // sort.rt: exclusions ascending and without repeats
