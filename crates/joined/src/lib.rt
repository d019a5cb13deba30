// No code: a gateway's visit joined with the stand-in.
#![tactic(auto)]
