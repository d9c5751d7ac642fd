// The policy image judged by its words.
#![tactic(auto)]

pub mod check; // check.rt: words judged and taken in, and the check
pub mod ending; // ending.rt: the last word, and the sum of all words
pub mod front; // front.rt: the length and the head
