// Whom an image stops: the definition of the stopped call stands in specs/. There is no function here.
#![tactic(auto)]
