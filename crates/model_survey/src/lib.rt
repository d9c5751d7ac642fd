// The definitions of the survey of an image and a script are in specs/. There is no function here.
#![tactic(auto)]
