// Lines from standard input, and text to standard output.
#![tactic(auto)]

ghost use Rattle.std.specs.Prelude.{◌≤◌, ◌≡◌, length};
ghost use Rattle.text.specs.Text.{written};
ghost use Rattle.console.specs.InputLines.{is_line_end};
ghost use Rattle.console.specs.LineReading.{CutMeets, HoldMeets, NextMeets, unread_of};
ghost use Rattle.console.specs.LineWriting.{line_end};
ghost use Rattle.console.specs.GatheringMirror.{place_in};

pub mod arguments;

use std::io::{Read, Stdin, Stdout, Write};

// The part of the source that was read and not yet taken.
#[derive(Clone, Copy, Debug, PartialEq, Eq)]
pub struct Unread {
    pub at: usize,
    pub end: usize,
}

// A line, of which so many bytes are held at the front of the buffer.
#[derive(Clone, Copy, Debug, PartialEq, Eq)]
pub enum Input {
    Line(usize),
    // What came behind the last line end; the input has ended.
    Last(usize),
}

#[derive(Clone, Copy, Debug, PartialEq, Eq)]
pub struct LineTaken {
    pub unread: Unread,
    pub input: Input,
}

// How many bytes were taken, how many are held of the line, whether it has ended; and whether there was no byte at all.
#[derive(Clone, Copy, Debug, PartialEq, Eq)]
pub struct Cut {
    pub taken: usize,
    pub held: usize,
    pub ended: bool,
    pub none: bool,
}

pub fn is_line_end(byte: u8) -> bool
    ensures { result ≡ is_line_end byte }
{
    matches!(byte, b'\n' | b'\r')
}

// Of a line too long for the buffer its front is held, and in the last place the first byte from there on that is no space or tab.
fn hold_byte(line: &mut [u8], before: usize, byte: u8) -> usize
    requires { before ≤ length line.old }
    ensures { HoldMeets line.old before byte result line.new }
{
    if before < line.len() {
        line[before] = byte;
        return before + 1;
    }
    if 0 < before {
        let last = before - 1;
        if words::is_gap(line[last]) {
            line[last] = byte;
            return before;
        }
    }
    before
}

// Bytes up to the first line end, behind what is held of the line already.
fn cut_line(bytes: &[u8], line: &mut [u8], before: usize) -> Cut
    requires { before ≤ length line.old }
    ensures { CutMeets bytes.now line.old before result line.new }
{
    let mut held = before;
    for (i, byte) in bytes.iter().enumerate() {
        if is_line_end(*byte) {
            return Cut {
                taken: i + 1,
                held,
                ended: true,
                none: false,
            };
        }
        held = hold_byte(line, held, *byte);
    }
    Cut {
        taken: bytes.len(),
        held,
        ended: false,
        none: bytes.len() == 0,
    }
}

// A read that fails counts as one that gave nothing: the input has ended.
fn refill(input: Stdin, source: &mut [u8]) -> usize
    ensures { result ≤ length source.new }
{
    let mut input = input;
    match input.read(source) {
        Ok(count) => count,
        Err(_) => 0,
    }
}

// Reads until the buffer is full or the input has ended; how many bytes are at its front then.
pub fn read_full(input: Stdin, buffer: &mut [u8]) -> usize
    ensures { result ≤ length buffer.new }
{
    let mut count = 0;
    while count < buffer.len() {
        let more = refill(input, &mut buffer[count..]);
        if more == 0 {
            return count;
        }
        count += more;
    }
    count
}

// The next line without its line end. The budget of reads is never used up.
pub fn next_line(input: Stdin, source: &mut [u8], unread: Unread, line: &mut [u8]) -> LineTaken
    ensures { NextMeets source.old (unread_of source.old unread.at unread.end) line.old result.input
        source.new result.unread.end (unread_of source.new result.unread.at result.unread.end) line.new }
{
    let end = unread.end.min(source.len());
    let at = unread.at.min(end);
    let first = cut_line(&source[at..end], line, 0);
    if first.ended {
        return LineTaken {
            unread: Unread {
                at: at + first.taken,
                end,
            },
            input: Input::Line(first.held),
        };
    }
    let mut held = first.held;
    for _ in 0..u64::MAX {
        let got = refill(input, source);
        let part = cut_line(&source[..got], line, held);
        held = part.held;
        if part.ended {
            return LineTaken {
                unread: Unread {
                    at: part.taken,
                    end: got,
                },
                input: Input::Line(held),
            };
        }
        if part.none {
            return LineTaken {
                unread: Unread { at: 0, end: 0 },
                input: Input::Last(held),
            };
        }
    }
    LineTaken {
        unread: Unread { at: 0, end: 0 },
        input: Input::Last(held),
    }
}

// Writes all the bytes to a stream. Nothing is to be done where it is closed.
pub fn write_all<W: Write>(stream: &mut W, bytes: &[u8]) {
    let _ = stream.write_all(bytes);
}

// Writes the text up to a place to a stream.
pub fn write_to<W: Write>(stream: &mut W, text: &[u8], end: usize) {
    write_all(stream, parts::front(text, end));
}

// To standard output.
pub fn write(output: Stdout, text: &[u8], end: usize) {
    let mut output = output;
    write_to(&mut output, text, end);
}

// Writes the text up to a place, and a line end.
pub fn say(output: Stdout, text: &mut [u8], at: usize)
    ensures { text.new ≡ written text.old at line_end }
{
    let end = text::put_byte(text, at, b'\n');
    write(output, text, end);
}

// Writes the text out to a stream where half of it is used; the place where the next line goes.
pub fn make_room<W: Write>(stream: &mut W, text: &[u8], at: usize) -> usize
    ensures { result ≡ place_in (length text.now) at }
{
    if at < text.len() / 2 {
        return at;
    }
    write_to(stream, text, at);
    0
}
