// The loop call: the shortest loop of the lowest role on one, shown.
#![tactic(auto)]

pub mod chain; // chain.rt: its levels, its chain, and the whole
