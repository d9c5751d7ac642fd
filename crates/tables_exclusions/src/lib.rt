// The exclusions of a policy image, read at the places of their words.
#![tactic(auto)]

pub mod exclusions; // exclusions.rt: one exclusion with its members, and all of them
