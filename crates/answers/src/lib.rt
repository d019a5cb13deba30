// The bench around the board: what each line of the desk's language does to it, and is answered, for stand_in and talk.
#![tactic(auto)]

ghost use Rattle.std.specs.Prelude.{◌≡◌, take};
ghost use Rattle.std.proofs.lemmas.List.Edits.{sets};
ghost use Rattle.text.specs.Text.{Puts};
ghost use Rattle.replies.specs.ReplyText.{packet_text, event_text, breakpoint_text};
ghost use Rattle.state_line.specs.StateText.{state_text};
ghost use Rattle.board.specs.Board.{fresh_board, fresh_place, making_verdict};
ghost use Rattle.grounds.specs.Grounds.{if_accepted};
ghost use Rattle.bus.specs.Events.{event_outcome, board_after_event, breakpoint_outcome, board_after_breakpoint};
ghost use Rattle.lent.specs.Lent.{zeros, fits, bytes_put};
ghost use Rattle.answers.specs.Bench.{access, bench_of, left, stepped, over_lent};
ghost use Rattle.answers.specs.Said.{made_text, memory_text, bytes_put_text, peeked_text, packet_outcome, Answers};

use board::{Board, Place};
use comparators::BusAccess;
use halting::Privilege;
use refusal_text::{put_refusal, put_unclear};
use trigger::Event;

// The board, the place, and how many bytes of memory are lent.
#[derive(Clone, Copy)]
pub struct Bench {
    pub board: Board,
    pub place: Place,
    pub lent: usize,
}

// The bench after a line, and where the answer in the text ends; 0 where no answer is due.
#[derive(Clone, Copy)]
pub struct Answered {
    pub bench: Bench,
    pub end: usize,
}

// As it starts: `make 0` with no memory.
pub fn opened() -> Bench
    ensures { result ≡ bench_of (fresh_board 0) fresh_place 0 }
{
    let made = board::make(0);
    Bench {
        board: made.board,
        place: made.place,
        lent: 0,
    }
}

pub fn make(w: u32, bench: Bench, text: &mut [u8]) -> Answered
    ensures { (result.bench ≡ if_accepted (making_verdict w) (bench_of (fresh_board w) fresh_place bench.lent) bench)
        × Puts text.old 0 (made_text (making_verdict w)) text.new result.end }
{
    let made = board::make(w);
    match made.verdict {
        Ok(()) => Answered {
            bench: Bench {
                board: made.board,
                place: made.place,
                ..bench
            },
            end: text::put_text(text, 0, b"made"),
        },
        Err(ground) => Answered {
            bench,
            end: put_refusal(text, ground),
        },
    }
}

pub fn lend(n: u32, bench: Bench, memory: &mut [u8], text: &mut [u8]) -> Answered
    ensures { Answers (left (bench_of bench.board bench.place n) (sets memory.old 0 (zeros n)))
        (memory_text n)
        text.old result memory.new text.new }
{
    let count = n as usize;
    lent::clear(memory, count);
    let at = text::put_text(text, 0, b"memory ");
    Answered {
        bench: Bench {
            lent: count,
            ..bench
        },
        end: text::put_number(text, at, count),
    }
}

pub fn put_bytes(
    line: &[u8],
    address: u32,
    start: usize,
    count: usize,
    bench: Bench,
    memory: &mut [u8],
    text: &mut [u8],
) -> Answered
    ensures { Answers (left bench (bytes_put line.now start count address bench.lent memory.old))
        (bytes_put_text (fits address count bench.lent) count)
        text.old result memory.new text.new }
{
    let end = if lent::put_bytes(line, start, count, address, bench.lent, memory) {
        let at = text::put_text(text, 0, b"bytes ");
        text::put_number(text, at, count)
    } else {
        put_unclear(text)
    };
    Answered { bench, end }
}

pub fn show_bytes(
    address: u32,
    count: u32,
    bench: Bench,
    memory: &[u8],
    text: &mut [u8],
) -> Answered
    ensures { (result.bench ≡ bench)
        × Puts text.old 0 (peeked_text (fits address count bench.lent) memory.now address count)
        text.new result.end }
{
    let end = if lent::is_lent(address, count as usize, bench.lent) {
        replies::put_peek(text, memory, address as usize, count)
    } else {
        put_unclear(text)
    };
    Answered { bench, end }
}

fn take_word(word: u32, bench: Bench, memory: &mut [u8], text: &mut [u8]) -> Answered
    ensures { Answers (stepped word bench memory.old)
        (packet_text (packet_outcome word bench memory.old))
        text.old result memory.new text.new }
{
    let answer = port::take_packet(bench.board, bench.place, memory, word);
    Answered {
        bench: Bench {
            board: answer.board,
            place: answer.place,
            ..bench
        },
        end: replies::put_reply(text, answer.outcome),
    }
}

pub fn watch(event: Event, bench: Bench, text: &mut [u8]) -> Answered
    ensures { (result.bench ≡ bench_of (board_after_event bench.board bench.place event) bench.place bench.lent)
        × Puts text.old 0 (event_text (event_outcome bench.board bench.place event)) text.new result.end }
{
    let answer = bus::take_event(bench.board, bench.place, event);
    Answered {
        bench: Bench {
            board: answer.board,
            ..bench
        },
        end: replies::put_event(text, answer.outcome),
    }
}

pub fn press(bench: Bench, text: &mut [u8]) -> Answered
    ensures { (result.bench ≡ bench_of (board_after_breakpoint bench.board bench.place) bench.place bench.lent)
        × Puts text.old 0 (breakpoint_text (breakpoint_outcome bench.board bench.place)) text.new result.end }
{
    let answer = bus::press_breakpoint(bench.board, bench.place);
    Answered {
        bench: Bench {
            board: answer.board,
            ..bench
        },
        end: replies::put_breakpoint(text, answer.outcome),
    }
}

pub fn tell_state(bench: Bench, text: &mut [u8]) -> Answered
    ensures { (result.bench ≡ bench) × Puts text.old 0 (state_text bench.board bench.place) text.new result.end }
{
    Answered {
        bench,
        end: state_line::put_state(text, bench.board, bench.place),
    }
}

pub fn carrying(pc: u32, address: u32, attribute: u32, lanes: u32, mark: Option<Privilege>) -> Event
    ensures { result ≡ access pc address attribute lanes mark }
{
    Event {
        pc,
        bus: Some(BusAccess {
            address,
            attribute: (attribute % 256) as u8,
            lanes,
        }),
        mark,
    }
}

pub fn packet_line(word: u32, bench: Bench, memory: &mut [u8], text: &mut [u8]) -> Answered
    ensures { Answers (over_lent (stepped word) bench memory.old)
        (packet_text (packet_outcome word bench (take bench.lent memory.old)))
        text.old result memory.new text.new }
{
    let n = lent::lent_of(bench.lent, memory.len());
    take_word(word, bench, &mut memory[..n], text)
}
