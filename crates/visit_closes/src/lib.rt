// No code: a visit's notes and the closing replies of demand 3.
#![tactic(auto)]
