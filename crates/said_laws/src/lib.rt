// What is said is the text of what was answered, and of nothing else; no code.
#![tactic(auto)]
