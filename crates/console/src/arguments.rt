// The words behind a program's name.
ghost use Rattle.std.specs.Prelude.{◌≤◌, length};

use std::env::{Env, FillError};

// Whether there is a word in this place; the program's name has place 0.
fn is_there<R: Env>(rt: &R, place: usize) -> bool {
    let mut none = [0u8; 1];
    !matches!(rt.arg(place, &mut none), Err(FillError::NotPresent))
}

// How many words there are, the program's name among them; 4 where there are more.
pub fn count<R: Env>(rt: &R) -> usize {
    (1..4).find(|place| !is_there(rt, *place)).unwrap_or(4)
}

// The word in this place at the front of the buffer, and how many bytes it has; 0 where there is none or the buffer is too short.
pub fn word<R: Env>(rt: &R, place: usize, buffer: &mut [u8]) -> usize
    ensures { result ≤ length buffer.new }
{
    rt.arg(place, buffer).unwrap_or(0)
}
