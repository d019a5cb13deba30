// The page of a trace: what its run did, in numbers, and the index of its cycles.
#![tactic(auto)]

mod noting;
pub mod page;
