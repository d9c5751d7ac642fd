// The words of a policy image, decoded.
#![tactic(auto)]

pub mod word; // word.rt: the head, and a word behind it
pub mod words; // words.rt: an image as words
