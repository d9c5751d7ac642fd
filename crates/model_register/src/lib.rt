// What the register of refusals says of images and calls, beside what the definitions give: the theorems stand in
// specs/ and proofs/. There is no function here.
#![tactic(auto)]
