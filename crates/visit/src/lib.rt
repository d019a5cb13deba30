// A gateway's visit (docs/gateway.md): a machine that is given what to read, and from its state gives the next packet, from a reply its next state.
#![tactic(auto)]

ghost use Rattle.std.specs.Prelude.{◌≡◌, get_or, length, set};
ghost use Rattle.building.specs.RequestWords.{built_words};
ghost use Rattle.asked.specs.VisitRequests.{request_at};
ghost use Rattle.visit.specs.declared.Stage.TheVariants.{Asking};
ghost use Rattle.visit.specs.Visit.{afterwards, ask_stage, closed_by, command_stage, ends_after, first_stage, heard, is_over};
ghost use Rattle.visit.specs.Visit.{lost, mark_stage, next_of, notable, noted, noted_at, noted_by, note_of, on_stage, read_by, second_stage, stage_after};
ghost use Rattle.visit.specs.Visit.{start_of, table_in_range};
ghost use Rattle.visit.specs.HandedOver.{handed_over, is_as_read, outcome_of};

use grounds::Ground;
use readings::{Outcome, Reader};

// So many "not ready" in a row to one request end the visit.
const PATIENCE: u32 = 256;

// Why a visit ends not read.
#[derive(Clone, Copy, Debug, PartialEq, Eq)]
pub enum Reason {
    Late,
    NotReady,
    NoReply,
    WordTooLarge,
    ImpossibleReply,
}

// What the visit is at.
#[derive(Clone, Copy)]
pub enum Stage {
    // A packet of a marker.
    Marking(u32),
    // A request, so many of whose packets are answered, up to 256 of them.
    Asking(u32, Reader),
    AsRead,
    NotRead(Reason),
}

#[derive(Clone, Copy)]
pub struct Visit {
    // Of the table.
    pub address: u32,
    // How many requests there are, and which of them is next or under way.
    pub ends: u32,
    pub at: u32,
    // The packets answered.
    pub packets: u32,
    pub stage: Stage,
}

#[derive(Clone, Copy, Debug, PartialEq, Eq)]
pub enum Next {
    Send(u32),
    EndsAsRead,
    // The packet whose reply ended it, and why.
    EndsNotRead(u32, Reason),
}

pub fn is_over(stage: Stage) -> bool
    ensures { result ≡ is_over stage }
{
    matches!(stage, Stage::AsRead | Stage::NotRead(_))
}

fn is_notable(outcome: Outcome, j: u32) -> bool
    ensures { result ≡ notable outcome j }
{
    !(asked::is_in_table(j) && outcome == Outcome::Illegal)
}

// ---- what it is given
fn is_table_in_range(address: u32, longwords: u32) -> bool
    ensures { result ≡ table_in_range address longwords }
{
    address % 4 == 0
        && longwords <= 65536
        && u64::from(address) + 4 * u64::from(longwords) <= 0x100000000
}

// The notes have a place for each result.
#[tactic(auto, using(crate::specs::VisitLaws::table_bound))]
pub fn start(address: u32, longwords: u32, notes: &[u64]) -> Result<Visit, Ground>
    ensures { result ≡ start_of address longwords (length notes.now) }
{
    if !is_table_in_range(address, longwords) {
        return Err(Ground::RequestOutOfRange);
    }
    if notes.len() < asked::REGISTERS as usize + longwords as usize {
        return Err(Ground::BufferTooShort);
    }
    Ok(Visit {
        address,
        ends: asked::REGISTERS + longwords,
        at: 0,
        packets: 0,
        stage: Stage::Marking(0),
    })
}

// ---- the next packet
// The request's words, and NOPs after them.
fn word_of(address: u32, j: u32, sent: u32) -> u32
    ensures { result ≡ get_or (built_words (request_at address j)) sent 0 }
{
    let mut words = [0u32; 5];
    let _ = building::build(asked::request_at(address, j), &mut words);
    words.get(sent as usize).copied().unwrap_or(0)
}

// The packet to send, once the reply to the one before is in.
#[tactic(auto, unfolding(crate::specs::Visit::next_of))]
pub fn next_packet(visit: Visit) -> Next
    ensures { result ≡ next_of visit }
{
    match visit.stage {
        Stage::Marking(i) => Next::Send(asked::marker::word_of(i)),
        Stage::Asking(sent, _) => Next::Send(word_of(visit.address, visit.at, sent)),
        Stage::AsRead => Next::EndsAsRead,
        Stage::NotRead(reason) => Next::EndsNotRead(visit.packets, reason),
    }
}

// ---- a reply
fn on_stage(visit: Visit, stage: Stage) -> Visit
    ensures { result ≡ on_stage visit stage }
{
    Visit {
        packets: visit.packets.saturating_add(1),
        stage,
        ..visit
    }
}

fn mark_stage(visit: Visit, i: u32, reply: u32) -> Stage
    ensures { result ≡ mark_stage visit i reply }
{
    if !asked::marker::is_due(i, reply) {
        Stage::NotRead(Reason::Late)
    } else if i < asked::marker::LAST {
        Stage::Marking(i + 1)
    } else if visit.ends <= visit.at {
        Stage::AsRead
    } else {
        Stage::Asking(0, Reader::First)
    }
}

fn after(ends: u32, j: u32) -> u32
    ensures { result ≡ afterwards ends j }
{
    if j < ends { j + 1 } else { j }
}

fn ends_after(outcome: Outcome, ends: u32, j: u32) -> u32
    ensures { result ≡ ends_after outcome ends j }
{
    if asked::is_in_table(j) && outcome == Outcome::BusError {
        after(ends, j)
    } else {
        ends
    }
}

fn stage_after(outcome: Outcome, ends: u32, j: u32) -> Stage
    ensures { result ≡ stage_after outcome ends j }
{
    if outcome == Outcome::Illegal || asked::is_marked(ends, j) {
        Stage::Marking(0)
    } else {
        Stage::Asking(0, Reader::First)
    }
}

#[tactic(auto, unfolding(crate::specs::Visit::closed_by))]
fn close(visit: Visit, outcome: Outcome) -> Visit
    ensures { result ≡ closed_by visit outcome }
{
    if !is_notable(outcome, visit.at) {
        return on_stage(visit, Stage::NotRead(Reason::ImpossibleReply));
    }
    let ends = ends_after(outcome, visit.ends, visit.at);
    let at = after(visit.ends, visit.at);
    on_stage(Visit { ends, at, ..visit }, stage_after(outcome, ends, at))
}

fn first_stage(sent: u32) -> Stage
    ensures { result ≡ first_stage sent }
{
    if sent < PATIENCE {
        Stage::Asking(sent + 1, Reader::First)
    } else {
        Stage::NotRead(Reason::NotReady)
    }
}

fn second_stage(sent: u32, upper: u16) -> Stage
    ensures { result ≡ second_stage sent upper }
{
    let sent = if sent < PATIENCE { sent + 1 } else { sent };
    Stage::Asking(sent, Reader::Second(upper))
}

// By what the reader has become.
fn read_on(visit: Visit, sent: u32, reader: Reader) -> Visit
    ensures { result ≡ read_by visit sent reader }
{
    match reader {
        Reader::First => on_stage(visit, first_stage(sent)),
        Reader::Second(upper) => on_stage(visit, second_stage(sent, upper)),
        Reader::Closed(outcome) => close(visit, outcome),
        Reader::Bad(_) => on_stage(visit, Stage::NotRead(Reason::ImpossibleReply)),
    }
}

fn note_of(outcome: Outcome) -> u64
    ensures { result ≡ note_of outcome }
{
    match outcome {
        Outcome::Value(value) => u64::from(value),
        Outcome::Complete => 0x100000000 + u64::from(command::COMPLETE),
        Outcome::BusError => 0x100000000 + u64::from(command::BUS_ERROR),
        Outcome::Illegal => 0x100000000 + u64::from(command::ILLEGAL),
    }
}

fn put_note(notes: &mut [u64], j: u32, note: u64)
    ensures { notes.new ≡ set notes.old j note }
{
    // By index: what stays where `get_mut` gives nothing has no proof.
    let i = j as usize;
    if i < notes.len() {
        notes[i] = note;
    }
}

fn take_note(notes: &mut [u64], j: u32, reader: Reader)
    ensures { notes.new ≡ noted_by j reader notes.old }
{
    match reader {
        Reader::Closed(outcome) if is_notable(outcome, j) => put_note(notes, j, note_of(outcome)),
        _ => {}
    }
}

fn command_stage(reply: u32) -> Stage
    ensures { result ≡ command_stage reply }
{
    if reply == command::COMPLETE {
        Stage::Asking(1, Reader::First)
    } else {
        Stage::NotRead(Reason::Late)
    }
}

fn take_answer(visit: Visit, sent: u32, reader: Reader, reply: u32, notes: &mut [u64]) -> Visit
    ensures { (result ≡ ask_stage visit sent reader reply)
        × (notes.new ≡ noted_at visit (Asking sent reader) reply notes.old) }
{
    if sent == 0 {
        return on_stage(visit, command_stage(reply));
    }
    let request = asked::request_at(visit.address, visit.at);
    let next = readings::take_reply(requests::kind_of(request), reader, reply);
    take_note(notes, visit.at, next);
    read_on(visit, sent, next)
}

// The reply to the packet that `next_packet` gave. A visit that is over stays as it is.
#[tactic(auto, unfolding(crate::specs::Visit::heard, crate::specs::Visit::noted))]
pub fn take_reply(visit: Visit, reply: u32, notes: &mut [u64]) -> Visit
    ensures { (result ≡ heard visit reply) × (notes.new ≡ noted visit reply notes.old) }
{
    match visit.stage {
        Stage::AsRead | Stage::NotRead(_) => visit,
        _ if 0x1FFFF < reply => on_stage(visit, Stage::NotRead(Reason::WordTooLarge)),
        Stage::Marking(i) => on_stage(visit, mark_stage(visit, i, reply)),
        Stage::Asking(sent, reader) => take_answer(visit, sent, reader, reply, notes),
    }
}

// No reply came.
#[tactic(auto, unfolding(crate::specs::Visit::lost))]
pub fn lose(visit: Visit) -> Visit
    ensures { result ≡ lost visit }
{
    if is_over(visit.stage) {
        visit
    } else {
        on_stage(visit, Stage::NotRead(Reason::NoReply))
    }
}

// ---- what is handed over
fn is_as_read(stage: Stage) -> bool
    ensures { result ≡ is_as_read stage }
{
    matches!(stage, Stage::AsRead)
}

fn outcome_of(note: u64) -> Outcome
    ensures { result ≡ outcome_of note }
{
    if note < 0x100000000 {
        Outcome::Value(note as u32)
    } else if note == 0x100000000 + u64::from(command::BUS_ERROR) {
        Outcome::BusError
    } else if note == 0x100000000 + u64::from(command::ILLEGAL) {
        Outcome::Illegal
    } else {
        Outcome::Complete
    }
}

// Result j of a visit that ended as read: the registers first, then the table.
#[tactic(auto, unfolding(crate::specs::HandedOver::handed_over))]
pub fn hand_over(visit: Visit, notes: &[u64], j: u32) -> Option<Outcome>
    ensures { result ≡ handed_over visit notes.now j }
{
    match notes.get(j as usize) {
        Some(note) if is_as_read(visit.stage) && j < visit.ends => Some(outcome_of(*note)),
        _ => None,
    }
}
