// What the choice of a role set (the User Authorization Query) reads of the policy: what roles carry.
#![tactic(auto)]

pub mod carriers; // carriers.rt: the roles that carry each wanted permission
pub mod carry; // carry.rt: what roles carry
