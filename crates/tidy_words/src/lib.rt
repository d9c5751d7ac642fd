// The words of the tidy image, counted and written from a policy's tables, its exclusions in the order that they stand
// in.
#![tactic(auto)]

pub mod count; // count.rt: how many words the groups have
pub mod groups; // groups.rt: the words of tables, of exclusions and of limits
pub mod image; // image.rt: all words from head to end
pub mod words; // words.rt: words written one behind another
