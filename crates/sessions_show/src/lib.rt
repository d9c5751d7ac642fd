// The calls that look at a session under an accepted policy and change nothing: shown, and a permission of it
// explained.
#![tactic(auto)]

pub mod explain; // explain.rt: a permission of a session explained
pub mod show; // show.rt: a session shown
