// For programs in other languages: events on a board as set up (01, "Events and firing"). `rt lib` writes the archive, out/libyarkovesh_events.a.
#![tactic(auto)]

ghost use Rattle.std.specs.Prelude.{◌≡◌, ◌+◌, ◌<◌, ◌≤◌, cond, length};
ghost use Rattle.std.proofs.lemmas.List.Edits.{sets};
ghost use Rattle.command.specs.Command.{wdmreg};
ghost use Rattle.registers.specs.Registers.{board_after};
ghost use Rattle.bus.specs.EventAnswers.{told_captured, told_event};
ghost use Rattle.yarkovesh_events.specs.ExportedEvents.{set_up, bus_of, event_at, events_of, answer_word, answers_to, EventsMeet};

use board::{Board, Place};
use command::{Command, DebugRegister, Target};
use comparators::BusAccess;
use firing::Seen;
use grounds::Ground;
use trigger::Event;

fn write(board: Board, register: DebugRegister, value: u32) -> Board
    ensures { result ≡ board_after (wdmreg register) board 0 value }
{
    registers::board_after(Command::Change(Target::Debug(register)), board, 0, value)
}

// The ten debug registers in the order of their numbers, and GO. A line to each: a loop over the ten beside their values needs an invariant over both lists.
#[tactic(auto, unfolding(crate::specs::ExportedEvents::set_up))]
fn set_up(board: Board, values: &[u32; 10]) -> Board
    ensures { result ≡ set_up values.now board }
{
    let board = write(board, DebugRegister::Csr, values[0]);
    let board = write(board, DebugRegister::Baar, values[1]);
    let board = write(board, DebugRegister::Aatr, values[2]);
    let board = write(board, DebugRegister::Tdr, values[3]);
    let board = write(board, DebugRegister::Pbr, values[4]);
    let board = write(board, DebugRegister::Pbmr, values[5]);
    let board = write(board, DebugRegister::Abhr, values[6]);
    let board = write(board, DebugRegister::Ablr, values[7]);
    let board = write(board, DebugRegister::Dbr, values[8]);
    let board = write(board, DebugRegister::Dbmr, values[9]);
    registers::board_after(Command::Change(Target::Run), board, 0, 0)
}

fn bus_of(attribute: u32, address: u32, lanes: u32) -> Option<BusAccess>
    ensures { result ≡ bus_of attribute address lanes }
{
    match u8::try_from(attribute) {
        Ok(attribute) => Some(BusAccess {
            address,
            attribute,
            lanes,
        }),
        Err(_) => None,
    }
}

fn read_event(words: &[u32], at: usize) -> Event
    requires { at + 3 < length words.now }
    ensures { result ≡ event_at words.now at }
{
    Event {
        pc: words[at],
        bus: bus_of(words[at + 1], words[at + 2], words[at + 3]),
        mark: None,
    }
}

fn value_if(holds: bool, value: u32) -> u32
    ensures { result ≡ cond holds value 0 }
{
    if holds { value } else { 0 }
}

fn count_captured(captured: Option<u32>) -> u32
    ensures { result ≡ length (told_captured captured) }
{
    match captured {
        None => 0,
        Some(_) => 1,
    }
}

fn word_of(outcome: Result<Seen, Ground>) -> u32
    requires { (told_event outcome).level ≤ 2 }
    ensures { result ≡ answer_word (told_event outcome) }
{
    match outcome {
        Err(ground) => grounds::number_of(ground) * 256,
        Ok(seen) => {
            let halted = value_if(seen.halted, 4);
            let interrupt = value_if(seen.interrupt, 8);
            let handed = count_captured(seen.captured);
            seen.level + (halted + (interrupt + handed * 16))
        }
    }
}

// The answers to all events, from the front of the buffer on.
fn take_events(mut board: Board, place: Place, words: &[u32], answers: &mut [u32])
    requires { length (events_of words.now) ≤ length answers.old }
    ensures { answers.new ≡ sets answers.old 0 (answers_to (events_of words.now) board place) }
{
    // By index: event i stands at word 4i, and its answer at word i of a buffer that may be longer.
    for i in 0..words.len() / 4 {
        let taken = bus::take_event(board, place, read_event(words, i * 4));
        answers[i] = word_of(taken.outcome);
        board = taken.board;
    }
}

// Events in turn on a fresh board of W = 0, its debug registers written and GO taken: 0, or 11 where there is no word for each answer.
#[unsafe(no_mangle)]
pub extern "C" fn yarkovesh_events(
    registers: &[u32; 10],
    events: &[u32],
    answers: &mut [u32],
) -> u32
    ensures { EventsMeet registers.now events.now answers.old result answers.new }
{
    if answers.len() < events.len() / 4 {
        return grounds::number_of(Ground::BufferTooShort);
    }
    let made = board::make(0);
    take_events(set_up(made.board, registers), made.place, events, answers);
    0
}
