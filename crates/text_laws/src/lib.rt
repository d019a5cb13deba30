// What is written is read back, and different answers have different text; no code.
#![tactic(auto)]
