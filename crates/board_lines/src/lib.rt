// The desk's language: the lines of `stand_in`.
#![tactic(auto)]

ghost use Rattle.std.specs.Prelude.{◌≡◌};
ghost use Rattle.words.specs.LineWords.{words, last_end};
ghost use Rattle.words.specs.WordSteps.{words_left};
ghost use Rattle.board_lines.specs.BoardLines.{memory_line, peek_line, board_of_none, board_of_one, board_of_two};
ghost use Rattle.board_lines.specs.BoardLines.{board_form, is_hex, hex_line, bytes_line, board_words, board_line};

use halting::Privilege;
use numbers::Numbers;
use words::{LineKind, Words};

mod events;

// A line of `stand_in`.
#[derive(Clone, Copy)]
pub enum BoardLine {
    // No answer is due.
    Nothing,
    Make(u32),
    Memory(u32),
    // The address, where the digits start in the line, and the count of bytes.
    Bytes(u32, usize, usize),
    Packet(u32),
    Event(u32, Option<Privilege>),
    // The PC, the access (address, attribute and lanes), and the mark.
    EventWithAccess(u32, u32, u32, u32, Option<Privilege>),
    Breakpoint,
    Peek(u32, u32),
    State,
    Unclear,
}

fn memory_line(n: u32) -> BoardLine
    ensures { result ≡ memory_line n }
{
    if n <= 0x10010 {
        BoardLine::Memory(n)
    } else {
        BoardLine::Unclear
    }
}

fn peek_line(a: u32, n: u32) -> BoardLine
    ensures { result ≡ peek_line a n }
{
    if 1 <= n && n <= 0x400 {
        BoardLine::Peek(a, n)
    } else {
        BoardLine::Unclear
    }
}

#[tactic(auto, unfolding(crate::specs::BoardLines::board_of_none))]
fn board_of_none(name: &[u8]) -> BoardLine
    ensures { result ≡ board_of_none name.now }
{
    if words::is_same(name, b"breakpoint") {
        BoardLine::Breakpoint
    } else if words::is_same(name, b"state") {
        BoardLine::State
    } else {
        BoardLine::Unclear
    }
}

#[tactic(auto, unfolding(crate::specs::BoardLines::board_of_one))]
fn board_of_one(name: &[u8], n: u32) -> BoardLine
    ensures { result ≡ board_of_one name.now n }
{
    if words::is_same(name, b"make") {
        BoardLine::Make(n)
    } else if words::is_same(name, b"memory") {
        memory_line(n)
    } else if words::is_same(name, b"packet") {
        BoardLine::Packet(n)
    } else {
        BoardLine::Unclear
    }
}

#[tactic(auto, unfolding(crate::specs::BoardLines::board_of_two))]
fn board_of_two(name: &[u8], a: u32, n: u32) -> BoardLine
    ensures { result ≡ board_of_two name.now a n }
{
    if words::is_same(name, b"peek") {
        peek_line(a, n)
    } else {
        BoardLine::Unclear
    }
}

fn read_form(name: &[u8], numbers: Numbers) -> BoardLine
    ensures { result ≡ board_form name.now numbers }
{
    match numbers {
        Numbers::Zero => board_of_none(name),
        Numbers::One(n) => board_of_one(name, n),
        Numbers::Two(a, n) => board_of_two(name, a, n),
        Numbers::Three(..) | Numbers::Four(..) | Numbers::NotNumbers => BoardLine::Unclear,
    }
}

fn is_hex(digits: &[u8]) -> bool
    ensures { result ≡ is_hex digits.now }
{
    2 <= digits.len() && digits.len() % 2 == 0 && numbers::are_digits(digits)
}

// The digits are the last word of the line, which ends at `close`.
#[tactic(auto, unfolding(crate::specs::BoardLines::hex_line))]
fn hex_line(close: usize, address: Option<u32>, digits: &[u8]) -> BoardLine
    ensures { result ≡ hex_line close address digits.now }
{
    let count = digits.len();
    match address {
        Some(a) if is_hex(digits) => BoardLine::Bytes(a, close.saturating_sub(count), count / 2),
        _ => BoardLine::Unclear,
    }
}

// The words behind `bytes`.
fn bytes_line(mut words: Words) -> BoardLine
    ensures { result ≡ bytes_line (last_end words.entry.line.now) (words_left words.entry) }
{
    let Some(address) = words.next() else {
        return BoardLine::Unclear;
    };
    let Some(digits) = words.next() else {
        return BoardLine::Unclear;
    };
    // A third word is not passed over, only looked for.
    if words::word_start(words.line, words.at) < words.line.len() {
        return BoardLine::Unclear;
    }
    hex_line(words.at, numbers::read_number(address), digits)
}

// A line that is not silent, nor too long.
#[tactic(auto, unfolding(crate::specs::BoardLines::board_words))]
pub fn read_words(line: &[u8]) -> BoardLine
    ensures { result ≡ board_words (last_end line.now) (words line.now) }
{
    let mut words = Words { line, at: 0 };
    let Some(name) = words.next() else {
        return BoardLine::Unclear;
    };
    if words::is_same(name, b"bytes") {
        bytes_line(words)
    } else if words::is_same(name, b"event") {
        events::event_line(words)
    } else {
        read_form(name, numbers::read_numbers(line, words.at))
    }
}

#[tactic(auto, unfolding(crate::specs::BoardLines::board_line))]
pub fn read_line(line: &[u8]) -> BoardLine
    ensures { result ≡ board_line line.now }
{
    match words::kind_of(line) {
        LineKind::Silent => BoardLine::Nothing,
        LineKind::Clear => read_words(line),
        LineKind::TooLong => BoardLine::Unclear,
    }
}
