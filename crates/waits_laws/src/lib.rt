// No code: what holds of the page of `waits`: it says SAME, and nothing of it is cut off.
#![tactic(auto)]
