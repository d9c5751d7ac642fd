// What an ask under a policy with limits on roles looks at beside the user's own line: whether every line is sound.
#![tactic(auto)]

pub mod lines; // lines.rt: the lowest line that is not sound
