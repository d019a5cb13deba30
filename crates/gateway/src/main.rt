// Reads a gateway at the other end of a pod (the desk's language, `gateway`): packets go to standard output, answers come from standard input, and what
// was read goes to standard error when the visit is over. Arguments: none, or ADDRESS LONGWORDS.
#![tactic(auto)]

ghost use Rattle.std.specs.Prelude.{◌≤◌, ◌<◌, ◌≡◌, length, take, Some};
ghost use Rattle.text.specs.Text.{Puts, written};
ghost use Rattle.console.specs.LineReading.{unread_of};
ghost use Rattle.console.specs.LineWriting.{laid};
ghost use Rattle.console.specs.GatheringMirror.{place_in};
ghost use Rattle.visit.specs.HandedOver.{handed_over};
ghost use Rattle.visit_lines.specs.VisitLines.{packet_line, read_line};
ghost use Rattle.visit_lines.specs.VisitPartsMirror.{end_parts, read_parts};
ghost use Rattle.gateway.specs.Visiting.{LineMeets, Shows, VisitMeets};
ghost use Rattle.gateway.specs.Gateway.{asked_by, AskedMeets, unclear_line};
ghost use Rattle.gateway.specs.GatewayMirror.{GatewayMeets, HeldMeets, ResultMeets};

use console::{Input, Unread, arguments};
use reply_lines::ReplyLine;
use std::env::Env;
use std::io::{Stderr, Stdin, Stdout};
use visit::{Next, Visit};

// The packet that the visit sends now, if it is not over.
fn send(output: Stdout, visit: Visit, packet: &mut [u8])
    ensures { packet.new ≡ laid packet.old (packet_line visit) }
{
    if let Next::Send(word) = visit::next_packet(visit) {
        let end = visit_text::put_packet(packet, word);
        console::say(output, packet, end);
    }
}

// An empty line and a comment are no answers, and no packet follows them.
fn take_line(
    output: Stdout,
    visit: Visit,
    line: &[u8],
    notes: &mut [u64],
    packet: &mut [u8],
) -> Visit
    ensures { LineMeets line.now visit notes.old packet.old result notes.new packet.new }
{
    match reply_lines::read_line(line) {
        ReplyLine::Nothing => visit,
        ReplyLine::Reply(word) => {
            let after = visit::take_reply(visit, word, notes);
            send(output, after, packet);
            after
        }
        ReplyLine::NoReply => visit::lose(visit),
    }
}

// Line after line from what is unread of the source on, until the visit is over: answers are awaited only where the first packet has gone out. The budget of
// lines is never used up.
fn take_lines(
    input: Stdin,
    output: Stdout,
    start: Visit,
    first: Unread,
    notes: &mut [u64],
    source: &mut [u8],
    line: &mut [u8],
    packet: &mut [u8],
) -> Visit
    requires line_is_long { 4096 < length line.old }
    requires shows { Shows start packet.old }
    ensures { VisitMeets (unread_of source.old first.at first.end) start notes.old packet.old
        result notes.new packet.new }
{
    let mut visit = start;
    let mut unread = first;
    for _ in 0..u64::MAX {
        if visit::is_over(visit.stage) {
            return visit;
        }
        let taken = console::next_line(input, source, unread, line);
        unread = taken.unread;
        match taken.input {
            Input::Line(held) => {
                visit = take_line(output, visit, &line[..held], notes, packet);
            }
            Input::Last(held) => {
                let last = take_line(output, visit, &line[..held], notes, packet);
                return visit::lose(last);
            }
        }
    }
    visit::lose(visit)
}

fn add_result(
    errors: &mut Stderr,
    visit: Visit,
    notes: &[u64],
    j: u32,
    text: &mut [u8],
    at: usize,
) -> usize
    ensures { ResultMeets visit.address j (handed_over visit notes.now j) text.old at text.new result }
{
    let handed = visit::hand_over(visit, notes, j);
    match handed {
        Some(outcome) => {
            let from = console::make_room(errors, text, at);
            visit_text::put_result(text, from, visit.address, j, outcome)
        }
        None => at,
    }
}

fn add_read(errors: &mut Stderr, visit: Visit, text: &mut [u8], at: usize) -> usize
    ensures { Puts text.old (place_in (length text.old) at) (read_line visit) text.new result }
{
    let from = console::make_room(errors, text, at);
    let end = visit_text::put_read(text, from, visit.packets);
    text::put_byte(text, end, b'\n')
}

// What was read, and how many packets it took.
fn tell_results(errors: &mut Stderr, visit: Visit, notes: &[u64], text: &mut [u8])
    ensures { text.new ≡ laid text.old (read_parts (length text.old) visit notes.now) }
{
    let mut at = 0usize;
    for j in 0..visit.ends {
        at = add_result(errors, visit, notes, j, text, at);
    }
    let end = add_read(errors, visit, text, at);
    console::write_to(errors, text, end);
}

// What the visit came to.
fn tell_end(errors: &mut Stderr, visit: Visit, notes: &[u64], text: &mut [u8])
    ensures { text.new ≡ laid text.old (end_parts (length text.old) visit notes.now) }
{
    match visit::next_packet(visit) {
        // A visit that is over sends no packet.
        Next::Send(_) => {}
        Next::EndsAsRead => tell_results(errors, visit, notes, text),
        Next::EndsNotRead(packet, reason) => {
            let end = visit_text::put_not_read(text, packet, reason);
            let end = text::put_byte(text, end, b'\n');
            console::write_to(errors, text, end);
        }
    }
}

fn tell_unclear(errors: &mut Stderr, text: &mut [u8])
    ensures { text.new ≡ written text.old 0 unclear_line }
{
    let end = refusal_text::put_unclear(text);
    let end = text::put_byte(text, end, b'\n');
    console::write_to(errors, text, end);
}

// What so many words ask, the program's name among them, of which two are these.
fn asked_by(count: usize, address: &[u8], longwords: &[u8]) -> Option<(u32, u32)>
    ensures { result ≡ asked_by count address.now longwords.now }
{
    if count < 2 {
        return Some((0, 0));
    }
    if count == 3 {
        return reply_lines::read_table(address, longwords);
    }
    None
}

// No word is longer than Linux lets one be, 131,071 bytes.
fn read_asked<R: Env>(rt: &R) -> Option<(u32, u32)>
    ensures { AskedMeets result }
{
    let mut address = [0u8; 131072];
    let mut longwords = [0u8; 131072];
    let address_end = arguments::word(rt, 1, &mut address);
    let longwords_end = arguments::word(rt, 2, &mut longwords);
    asked_by(
        arguments::count(rt),
        &address[..address_end],
        &longwords[..longwords_end],
    )
}

// A visit from its first packet to its end, and then what it came to.
fn hold_visit(
    input: Stdin,
    output: Stdout,
    errors: &mut Stderr,
    start: Visit,
    notes: &mut [u64],
    packet: &mut [u8],
    text: &mut [u8],
)
    ensures { HeldMeets start notes.old packet.old text.old packet.new text.new }
{
    let mut source = [0u8; 65536];
    let mut line = [0u8; 4097];
    let nothing = Unread { at: 0, end: 0 };
    send(output, start, packet);
    let over = take_lines(
        input,
        output,
        start,
        nothing,
        notes,
        &mut source,
        &mut line,
        packet,
    );
    tell_end(errors, over, notes, text);
}

fn visit_gateway(
    input: Stdin,
    output: Stdout,
    errors: &mut Stderr,
    address: u32,
    longwords: u32,
    packet: &mut [u8],
    text: &mut [u8],
)
    ensures { GatewayMeets (Some (address, longwords)) packet.old text.old packet.new text.new }
{
    let mut notes = [0u64; 65563];
    let started = visit::start(address, longwords, &notes);
    match started {
        Err(_) => tell_unclear(errors, text),
        Ok(start) => hold_visit(input, output, errors, start, &mut notes, packet, text),
    }
}

fn answer(
    input: Stdin,
    output: Stdout,
    errors: &mut Stderr,
    asked: Option<(u32, u32)>,
    packet: &mut [u8],
    text: &mut [u8],
)
    ensures { GatewayMeets asked packet.old text.old packet.new text.new }
{
    match asked {
        None => tell_unclear(errors, text),
        Some((address, longwords)) => visit_gateway(
            input, output, errors, address, longwords, packet, text,
        ),
    }
}

fn main(rt: HostRuntime) {
    let mut packet = [0u8; 16];
    let mut text = [0u8; 65536];
    let mut errors = rt.stderr();
    answer(
        rt.stdin(),
        rt.stdout(),
        &mut errors,
        read_asked(&rt),
        &mut packet,
        &mut text,
    );
}
