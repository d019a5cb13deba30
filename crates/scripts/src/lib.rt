// A script of one of the morning's checks: what its lines leave, and what is shown of their answers.
#![tactic(auto)]

use answers::Bench;

// The bench after some lines, where what they showed ends in the text, and whether any was shown.
#[derive(Clone, Copy)]
pub struct Gone {
    pub bench: Bench,
    pub end: usize,
    pub shown: bool,
}

// The bench after some checks, where the page goes on, and how many of nine are bad.
#[derive(Clone, Copy)]
pub struct Checked {
    pub bench: Bench,
    pub end: usize,
    pub bad: u32,
}
