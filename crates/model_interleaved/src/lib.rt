// Calls side by side on one ledger: what is claimed of them stands in specs/, the theorems in proofs/. There is no
// function here.
#![tactic(auto)]
