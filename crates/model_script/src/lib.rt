// The definitions of the script, what is printed for it among them, are in specs/. There is no function here.
#![tactic(auto)]
