// [10] The same answers at every wait setting: definitions and laws, no code.
#![tactic(auto)]
