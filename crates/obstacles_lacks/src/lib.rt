// A permission that stands in the way of an ask: the lowest of the lower bound that roles lack, and the roles that
// carry it.
#![tactic(auto)]

pub mod found; // found.rt: what stands in the way
pub mod lacking; // lacking.rt: the lowest permission that roles lack
pub mod roles; // roles.rt: the roles that the kinds 1 to 3 tell
