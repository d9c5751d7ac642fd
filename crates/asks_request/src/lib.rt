// What an ask under an accepted policy asks for: its bounds as permission sets, and what refuses it before the search.
#![tactic(auto)]

pub mod bounds; // bounds.rt: an ask's bounds as permission sets
pub mod request; // request.rt: the refusals that an ask can give before the search
