// The pod's half: the command that a request means, laws of requests and of readings, and examples; no code.
#![tactic(auto)]
