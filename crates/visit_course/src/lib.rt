// No code: the meaning of a visit's requests in turn.
#![tactic(auto)]
