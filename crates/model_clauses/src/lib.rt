// The encoding of an ask as weighted clauses: what the clauses and their text mean, in specs/ and proofs/. There is no
// function here.
#![tactic(auto)]
