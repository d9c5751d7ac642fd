// The tables of an accepted policy image: filled in the pass that judges it.
#![tactic(auto)]

pub mod judge; // judge.rt: an image judged, with no table kept
pub mod read; // read.rt: one pass that judges an image and fills its tables
