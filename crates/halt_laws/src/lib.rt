// What sets CSR's HALT, over histories: no code.
#![tactic(auto)]
