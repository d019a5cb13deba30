// The pod's half (01, "What the desk checks by eye"): a reader that takes one reply at a time, and the reading of a list of replies.
#![tactic(auto)]

ghost use Rattle.std.specs.Prelude.{◌≡◌, ◌≤◌};
ghost use Rattle.readings.specs.Reader.{result_word, data_reply, status_reply, first_reply, second_reply, after_reply, done};
ghost use Rattle.readings.specs.Reading.{answered, reading_of, ReadingMeets};

use grounds::Ground;
use memory::Size;
use requests::Request;

// What the closing reply brings.
#[derive(Clone, Copy, Debug, PartialEq, Eq)]
pub enum Outcome {
    Value(u32),
    Complete,
    BusError,
    Illegal,
}

// What one reads with, from reply to reply.
#[derive(Clone, Copy, Debug, PartialEq, Eq)]
pub enum Reader {
    // The first result word is still to come.
    First,
    // The upper result word is in.
    Second(u16),
    Closed(Outcome),
    Bad(Ground),
}

fn take_result(size: Size, reply: u32) -> Reader
    requires { reply ≤ 0xFFFF }
    ensures { result ≡ result_word size reply }
{
    match size {
        Size::Byte if 0xFF < reply => Reader::Bad(Ground::ImpossibleReply),
        Size::Byte | Size::Word => Reader::Closed(Outcome::Value(reply)),
        Size::Long => Reader::Second(reply as u16),
    }
}

fn take_data(kind: Option<Size>, reply: u32) -> Reader
    requires { reply ≤ 0xFFFF }
    ensures { result ≡ data_reply kind reply }
{
    match kind {
        None if reply == command::COMPLETE => Reader::Closed(Outcome::Complete),
        None => Reader::Bad(Ground::ImpossibleReply),
        Some(size) => take_result(size, reply),
    }
}

fn take_status(reply: u32) -> Reader
    ensures { result ≡ status_reply reply }
{
    match reply {
        command::NOT_READY => Reader::First,
        command::BUS_ERROR => Reader::Closed(Outcome::BusError),
        command::ILLEGAL => Reader::Closed(Outcome::Illegal),
        _ => Reader::Bad(Ground::ImpossibleReply),
    }
}

fn take_first(kind: Option<Size>, reply: u32) -> Reader
    ensures { result ≡ first_reply kind reply }
{
    if reply <= 0xFFFF {
        take_data(kind, reply)
    } else {
        take_status(reply)
    }
}

fn take_second(upper: u16, reply: u32) -> Reader
    ensures { result ≡ second_reply upper reply }
{
    if reply <= 0xFFFF {
        Reader::Closed(Outcome::Value(u32::from(upper) * 65536 + reply))
    } else {
        Reader::Bad(Ground::ImpossibleReply)
    }
}

// The reader after one reply more. A reader that is done stays as it is.
pub fn take_reply(kind: Option<Size>, reader: Reader, reply: u32) -> Reader
    ensures { result ≡ after_reply kind reader reply }
{
    match reader {
        Reader::Closed(_) | Reader::Bad(_) => reader,
        _ if 0x1FFFF < reply => Reader::Bad(Ground::WordTooLarge),
        Reader::First => take_first(kind, reply),
        Reader::Second(upper) => take_second(upper, reply),
    }
}

pub fn is_done(reader: Reader) -> bool
    ensures { result ≡ done reader }
{
    matches!(reader, Reader::Closed(_) | Reader::Bad(_))
}

fn answer_of(reader: Reader, used: usize) -> Result<(Option<Outcome>, usize), Ground>
    ensures { result ≡ answered reader used }
{
    match reader {
        Reader::First | Reader::Second(_) => Ok((None, used)),
        Reader::Closed(outcome) => Ok((Some(outcome), used)),
        Reader::Bad(ground) => Err(ground),
    }
}

#[tactic(auto, using(crate::specs::ReaderLaws::from_done))]
fn read_replies(kind: Option<Size>, replies: &[u32]) -> Result<(Option<Outcome>, usize), Ground>
    ensures { result ≡ reading_of kind replies.now }
{
    let mut reader = Reader::First;
    for (used, reply) in replies.iter().enumerate() {
        if is_done(reader) {
            return answer_of(reader, used);
        }
        reader = take_reply(kind, reader, *reply);
    }
    answer_of(reader, replies.len())
}

// The replies start with the one to the packet after the command word.
pub fn read(request: Request, replies: &[u32]) -> Result<(Option<Outcome>, usize), Ground>
    ensures { ReadingMeets request replies.now result }
{
    if requests::is_in_range(request) {
        read_replies(requests::kind_of(request), replies)
    } else {
        Err(Ground::RequestOutOfRange)
    }
}
