// What `unmend` makes of a list and a mended trace behind it, and what it says of them.
#![tactic(auto)]

ghost use Rattle.std.specs.Prelude.{◌≡◌, ◌≤◌, length};
ghost use Rattle.text.specs.Text.{Puts};
ghost use Rattle.unmend_text.specs.UnmendText.{reason_text, unmend_told, written_from, BehindMeets, UnmendedMeets, UnmendTells};

use mend_text::put_counts;
use refusal_text::put_unclear;
use text::{put_byte, put_text};

// Where the recorded trace begins in the input, and how many of its cycles had been changed.
#[derive(Clone, Copy, Debug, PartialEq, Eq)]
pub struct Recorded {
    pub from: usize,
    pub changed: usize,
}

// Why an input is not unmended.
#[derive(Clone, Copy, Debug, PartialEq, Eq)]
pub enum NotUnmended {
    Unclear,
    NotItsList,
}

// Where the text ends, and where the bytes for standard output begin.
#[derive(Clone, Copy, Debug, PartialEq, Eq)]
pub struct UnmendSaid {
    pub end: usize,
    pub from: usize,
}

// The bytes from a place on, unmended where the list is theirs.
fn unmend_behind(input: &mut [u8], from: usize, list: &[u32]) -> bool
    requires { from ≤ length input.old }
    ensures { BehindMeets input.old from list.now result input.new }
{
    unmending::unmend_trace(&mut input[from..], list)
}

// The trace behind the list put back as it was recorded, in its place.
pub fn unmend_input(input: &mut [u8], list: &mut [u32]) -> Result<Recorded, NotUnmended>
    ensures { UnmendedMeets input.old list.old result input.new list.new }
{
    if 700000 < input.len() {
        return Err(NotUnmended::Unclear);
    }
    let Some(read) = list_lines::read_list(input, list) else {
        return Err(NotUnmended::Unclear);
    };
    let from = read.from;
    let changed = read.changed;
    let behind = input.len().saturating_sub(from);
    if behind != read.cycles {
        return Err(NotUnmended::NotItsList);
    }
    if unmend_behind(input, from, &list[..changed]) {
        Ok(Recorded { from, changed })
    } else {
        Err(NotUnmended::NotItsList)
    }
}

fn put_reason(text: &mut [u8], reason: NotUnmended) -> usize
    ensures { Puts text.old 0 (reason_text reason) text.new result }
{
    match reason {
        NotUnmended::Unclear => {
            let at = put_unclear(text);
            put_byte(text, at, b'\n')
        }
        NotUnmended::NotItsList => put_text(text, 0, b"not-its-list\n"),
    }
}

fn put_unmended(text: &mut [u8], bytes: usize, unmended: Result<Recorded, NotUnmended>) -> usize
    ensures { Puts text.old 0 (unmend_told bytes unmended) text.new result }
{
    match unmended {
        Ok(recorded) => put_counts(
            text,
            b"unmended",
            bytes.saturating_sub(recorded.from),
            recorded.changed,
        ),
        Err(reason) => put_reason(text, reason),
    }
}

fn written_from(bytes: usize, unmended: Result<Recorded, NotUnmended>) -> usize
    ensures { result ≡ written_from bytes unmended }
{
    match unmended {
        Ok(recorded) => recorded.from,
        Err(_) => bytes,
    }
}

// Unmends an input and puts all that is said of it.
pub fn tell_unmended(text: &mut [u8], input: &mut [u8], list: &mut [u32]) -> UnmendSaid
    ensures { UnmendTells text.old input.old list.old result
        text.new input.new list.new }
{
    let bytes = input.len();
    let unmended = unmend_input(input, list);
    let end = put_unmended(text, bytes, unmended);
    UnmendSaid {
        end,
        from: written_from(bytes, unmended),
    }
}
