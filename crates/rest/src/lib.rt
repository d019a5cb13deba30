// Coming to rest: 4 + W NOPs bring the port to rest, whatever is under way; no code.
#![tactic(auto)]
