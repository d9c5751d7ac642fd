// Lines of figures written into a buffer.
#![tactic(auto)]

pub mod figures;
