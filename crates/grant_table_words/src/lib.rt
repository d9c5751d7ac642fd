// 64 words of 64 bits turned: bit c of word k at bit k of word c.
#![tactic(auto)]

pub mod transpose; // transpose.rt: 64 words of 64 bits transposed
