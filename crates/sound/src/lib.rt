// What every packet keeps: ranges and widths; no code.
#![tactic(auto)]
