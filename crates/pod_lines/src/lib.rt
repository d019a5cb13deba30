// The desk's language: the lines of `pod`.
#![tactic(auto)]

ghost use Rattle.std.specs.Prelude.{◌≡◌};
ghost use Rattle.words.specs.LineWords.{words};
ghost use Rattle.words.specs.WordSteps.{words_left};
ghost use Rattle.numbers.specs.Numbers.{numbers};
ghost use Rattle.request_lines.specs.RequestLines.{request_of};
ghost use Rattle.pod_lines.specs.PodLines.{Meaning, before_colon, after_colon, read_line, pod_words, pod_meaning, PodMeets};
ghost use Rattle.pod_lines.specs.PodLinesMirror.{behind};

use numbers::Numbers;
use requests::Request;
use words::{LineKind, Words};

mod taking;

// A line of `pod`.
#[derive(Clone, Copy)]
pub enum PodLine {
    // No answer is due.
    Nothing,
    Build(Request),
    // The request, and the count of reply words now at the front of the buffer.
    Read(Request, usize),
    // More reply words than the buffer holds. One of 2,048 is long enough for any line.
    BufferTooShort,
    Unclear,
}

// Why words are not taken as numbers into a buffer.
#[derive(Clone, Copy, Debug, PartialEq, Eq)]
pub enum NotTaken {
    TooMany,
    NotAllNumbers,
}

// The numbers before the colon, and where it ends.
#[derive(Clone, Copy)]
pub struct Parted {
    pub numbers: Numbers,
    pub colon: Option<usize>,
}

fn part_at_colon(mut words: Words) -> Parted
    ensures { (result.numbers ≡ numbers (before_colon (words_left words.entry)))
        × (behind words.entry.line.now result.colon ≡ after_colon (words_left words.entry)) }
{
    let mut numbers = Numbers::Zero;
    while let Some(word) = words.next() {
        if words::is_same(word, b":") {
            let colon = Some(words.at);
            return Parted { numbers, colon };
        }
        numbers = numbers::add_number(numbers, numbers::read_number(word));
    }
    let colon = None;
    Parted { numbers, colon }
}

fn take_replies(request: Request, words: Words, buffer: &mut [u32]) -> PodLine
    ensures { PodMeets (Meaning.reads request (words_left words.entry)) buffer.old result buffer.new }
{
    match taking::take_numbers(words, buffer) {
        Ok(count) => PodLine::Read(request, count),
        Err(NotTaken::TooMany) => PodLine::BufferTooShort,
        Err(NotTaken::NotAllNumbers) => PodLine::Unclear,
    }
}

fn read_reading(
    asked: Option<Request>,
    colon: Option<usize>,
    line: &[u8],
    buffer: &mut [u32],
) -> PodLine
    ensures { PodMeets (read_line asked (behind line.now colon)) buffer.old result buffer.new }
{
    match (asked, colon) {
        (Some(request), Some(at)) => take_replies(request, Words { line, at }, buffer),
        _ => PodLine::Unclear,
    }
}

fn read_read(mut words: Words, buffer: &mut [u32]) -> PodLine
    ensures { PodMeets
        (read_line (request_of (before_colon (words_left words.entry))) (after_colon (words_left words.entry)))
        buffer.old result buffer.new }
{
    let Some(name) = words.next() else {
        return PodLine::Unclear;
    };
    if words::is_same(name, b":") {
        return PodLine::Unclear;
    }
    let parted = part_at_colon(words);
    let asked = request_lines::read_form(name, parted.numbers);
    read_reading(asked, parted.colon, words.line, buffer)
}

fn read_words(line: &[u8], buffer: &mut [u32]) -> PodLine
    ensures { PodMeets (pod_words (words line.now)) buffer.old result buffer.new }
{
    let mut words = Words { line, at: 0 };
    let Some(name) = words.next() else {
        return PodLine::Unclear;
    };
    if words::is_same(name, b"build") {
        match request_lines::read_request(line, words.at) {
            Some(request) => PodLine::Build(request),
            None => PodLine::Unclear,
        }
    } else if words::is_same(name, b"read") {
        read_read(words, buffer)
    } else {
        PodLine::Unclear
    }
}

// The reply words of a `read` go to the front of the buffer; it stays as it was in every other case.
pub fn read_line(line: &[u8], buffer: &mut [u32]) -> PodLine
    ensures { PodMeets (pod_meaning line.now) buffer.old result buffer.new }
{
    match words::kind_of(line) {
        LineKind::Silent => PodLine::Nothing,
        LineKind::Clear => read_words(line, buffer),
        LineKind::TooLong => PodLine::Unclear,
    }
}
