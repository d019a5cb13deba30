// The meaning of a request and the round trip: definitions and laws, no code.
#![tactic(auto)]
