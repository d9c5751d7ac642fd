// The tidy image of a policy, written from its tables: head, assignments, grants, seniors, exclusions, limits, and the
// end word.
#![tactic(auto)]

pub mod whole; // whole.rt: the whole image, or a refusal where the buffer is too small
