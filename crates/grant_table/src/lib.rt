// The closed grant table in bytes.
#![tactic(auto)]

pub mod table; // table.rt: the closed grant table in bytes
