// Ledgers carried from one number of sessions (01: windows) a user to another, under an accepted policy.
#![tactic(auto)]

pub mod lines; // lines.rt: all lines judged, then all written
