// What is promised of the whole port, over the definitions that the contracts cite; no code.
#![tactic(auto)]
