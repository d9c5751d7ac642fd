// A user's line of the ledger as a value: read from its bytes and written to them, and judged sound.
#![tactic(auto)]

pub mod bytes;
pub mod lines;
pub mod plainly;
pub mod sound;
