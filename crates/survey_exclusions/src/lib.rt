// The lines of an image's exclusions, or that of its refusal, written into a buffer.
#![tactic(auto)]

pub mod exclusions;
