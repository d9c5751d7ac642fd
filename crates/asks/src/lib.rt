// An ask under an accepted policy: the best admissible role set put into the session and answered.
#![tactic(auto)]

pub mod ask; // ask.rt: roles asked for
