// The tidy image of a policy, and images with their entries moved about: the definitions stand in specs/. There is no
// function here.
#![tactic(auto)]
