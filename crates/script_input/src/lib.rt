// What the programs over a policy image and a script share. Modules: `lines` finds the lines in the chunks of a script,
// `file` reads the image, `failure` says why a program can't go on.
#![tactic(auto)]

pub mod failure;
pub mod file;
pub mod lines;
