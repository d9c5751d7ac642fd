// The usual words of a policy image: known by few tests, and taken in by runs.
#![tactic(auto)]

pub mod taking; // taking.rt: what takes in the permissions that an image grants
pub mod usual; // usual.rt: a grant, the assignments to one user, a senior word, and runs of them
