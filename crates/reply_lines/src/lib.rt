// The desk's language, `gateway`: the answers that it reads, and the words behind the program's name.
#![tactic(auto)]

ghost use Rattle.std.specs.Prelude.{◌≡◌};
ghost use Rattle.words.specs.LineWords.{words};
ghost use Rattle.numbers.specs.Numbers.{numeral};
ghost use Rattle.reply_lines.specs.ReplyLines.{reply_form, reply_line, reply_of_one, reply_words, table_of};

use numbers::Numbers;
use words::{LineKind, Words};

#[derive(Clone, Copy, Debug, PartialEq, Eq)]
pub enum ReplyLine {
    // An empty line or a comment.
    Nothing,
    Reply(u32),
    NoReply,
}

#[tactic(auto, unfolding(crate::specs::ReplyLines::reply_of_one))]
fn reply_of_one(name: &[u8], n: u32) -> ReplyLine
    ensures { result ≡ reply_of_one name.now n }
{
    if words::is_same(name, b"reply") {
        ReplyLine::Reply(n)
    } else {
        ReplyLine::NoReply
    }
}

fn read_form(name: &[u8], numbers: Numbers) -> ReplyLine
    ensures { result ≡ reply_form name.now numbers }
{
    match numbers {
        Numbers::One(n) => reply_of_one(name, n),
        _ => ReplyLine::NoReply,
    }
}

#[tactic(auto, unfolding(crate::specs::ReplyLines::reply_words))]
fn read_words(line: &[u8]) -> ReplyLine
    ensures { result ≡ reply_words (words line.now) }
{
    let mut words = Words { line, at: 0 };
    let Some(name) = words.next() else {
        return ReplyLine::NoReply;
    };
    read_form(name, numbers::read_numbers(line, words.at))
}

#[tactic(auto, unfolding(crate::specs::ReplyLines::reply_line))]
pub fn read_line(line: &[u8]) -> ReplyLine
    ensures { result ≡ reply_line line.now }
{
    match words::kind_of(line) {
        LineKind::Silent => ReplyLine::Nothing,
        LineKind::Clear => read_words(line),
        LineKind::TooLong => ReplyLine::NoReply,
    }
}

fn table_of(address: Option<u32>, longwords: Option<u32>) -> Option<(u32, u32)>
    ensures { result ≡ table_of address longwords }
{
    Some((address?, longwords?))
}

pub fn read_table(address: &[u8], longwords: &[u8]) -> Option<(u32, u32)>
    ensures { result ≡ table_of (numeral address.now) (numeral longwords.now) }
{
    table_of(
        numbers::read_number(address),
        numbers::read_number(longwords),
    )
}
