// Tables of bits turned: bit p of row r at bit r of row p.
#![tactic(auto)]

pub mod bytes; // bytes.rt: tables of 2,048 bytes turned, and back
