// The calls that change a user's line and look for no roles: a session opened and closed under an accepted policy.
#![tactic(auto)]

pub mod close; // close.rt: a session closed
pub mod open; // open.rt: a session opened
