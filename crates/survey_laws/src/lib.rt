// The theorems about the survey are in proofs/, listed cases of it in specs/. There is no function here.
#![tactic(auto)]
