// Decimal and hexadecimal words of a script read as numbers and bounds.
#![tactic(auto)]

pub mod numerals;
