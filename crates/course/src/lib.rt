// The course of a conversation: what its lines leave, one after the other.
#![tactic(auto)]

use answers::Bench;

// The bench after a line, and whether it was the last.
#[derive(Clone, Copy)]
pub struct Served {
    pub bench: Bench,
    pub over: bool,
}
