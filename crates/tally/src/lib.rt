// The tally of some items: of each code how many, the first cycle and the last; and the instruction starts; no code.
#![tactic(auto)]
