// No code: what the program gateway says of the stand-in.
#![tactic(auto)]
