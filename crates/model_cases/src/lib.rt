// Listed cases of the calls, from the bytes of images: the cases stand in specs/, their proofs in proofs/. There is no
// function here.
#![tactic(auto)]
