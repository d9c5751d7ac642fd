// The laws of the definitions and the theorems over them: proofs/Theorems.antt lists these. There is no function here.
#![tactic(auto)]
