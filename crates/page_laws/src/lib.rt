// What holds of a page as it is handed over, and of a listing from an entry of its index; no code.
#![tactic(auto)]
