// Runs one after the other, under policies that change: the theorems on them stand in specs/ and proofs/. There is no
// function here.
#![tactic(auto)]
