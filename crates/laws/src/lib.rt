// General laws that more than one part uses: of tests and of stores to a buffer; no code.
#![tactic(auto)]
