// What every call on a user's line under an accepted policy shares: the refusals that it can give first, and the answer
// buffer filled.
#![tactic(auto)]

pub mod answer; // answer.rt: the answer buffer filled
pub mod given; // given.rt: what a call is given beside tables and bytes
pub mod first; // first.rt: the refusals that every call on a line can give first
