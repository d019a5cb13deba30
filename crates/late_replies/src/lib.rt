// No code: a gateway's visit to a port whose replies come late.
#![tactic(auto)]
