// The theorems on tidy images and on the order of entries, and the laws behind them: they stand in proofs/. There is no
// function here.
#![tactic(auto)]
