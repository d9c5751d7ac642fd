// The lines of the text of an ask's clauses: its variables, literals, and clauses of one to three.
#![tactic(auto)]

pub mod lines; // lines.rt: literals and the lines of clauses
pub mod variables; // variables.rt: the variables of roles and permissions
