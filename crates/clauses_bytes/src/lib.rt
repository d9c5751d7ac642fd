// Bytes and decimals of the text of an ask's clauses, put into a buffer from a place on. Each function returns the
// place behind its text, whatever the room: a byte past the buffer's end is counted and not written.
#![tactic(auto)]

pub mod bytes; // bytes.rt: bytes and decimals
