// The exclusions of the choice of a role set: reduced to what may still join, and whether roles meet them.
#![tactic(auto)]

pub mod exclusions; // exclusions.rt: the exclusions reduced to what may still join
pub mod line_session; // line_session.rt: a session of a user's line
pub mod met; // met.rt: whether roles meet the reduced exclusions
pub mod reduced; // reduced.rt: the reduced exclusions
