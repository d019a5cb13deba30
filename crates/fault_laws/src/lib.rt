// The address that was not there, over histories: no code.
#![tactic(auto)]
