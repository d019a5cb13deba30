// No code: the lines that the program gateway writes.
#![tactic(auto)]
