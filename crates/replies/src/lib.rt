// The text of the answers to the board's lines.
#![tactic(auto)]

ghost use Rattle.std.specs.Prelude.{◌≡◌, ◌+◌, get_or};
ghost use Rattle.text.specs.Text.{Puts};
ghost use Rattle.replies.specs.ReplyText.{packet_text, halted_text, captured_text, halting_text, seen_text};
ghost use Rattle.replies.specs.ReplyText.{event_text, pressed_text, breakpoint_text, bytes_text, peek_text};

use firing::{Pressed, Seen};
use grounds::Ground;
use halting::Halting;
use refusal_text::put_refusal;

pub fn put_reply(text: &mut [u8], outcome: Result<u32, Ground>) -> usize
    ensures { Puts text.old 0 (packet_text outcome) text.new result }
{
    match outcome {
        Ok(reply) => {
            let at = text::put_text(text, 0, b"reply ");
            text::put_hex(text, at, reply, 5)
        }
        Err(ground) => put_refusal(text, ground),
    }
}

fn put_halted(text: &mut [u8], at: usize, halted: bool, interrupt: bool) -> usize
    ensures { Puts text.old at (halted_text halted interrupt) text.new result }
{
    let at = text::put_text(text, at, b" halted ");
    let at = text::put_flag(text, at, halted);
    let at = text::put_text(text, at, b" interrupt ");
    text::put_flag(text, at, interrupt)
}

fn put_captured(text: &mut [u8], at: usize, captured: Option<u32>) -> usize
    ensures { Puts text.old at (captured_text captured) text.new result }
{
    match captured {
        None => text::put_text(text, at, b" pc none"),
        Some(pc) => {
            let at = text::put_text(text, at, b" pc ");
            text::put_hex(text, at, pc, 8)
        }
    }
}

fn put_halting(text: &mut [u8], at: usize, halting: Halting) -> usize
    ensures { Puts text.old at (halting_text halting) text.new result }
{
    match halting {
        Halting::NoHalt => at,
        Halting::Halts => text::put_text(text, at, b" ignored 0"),
        Halting::Ignored => text::put_text(text, at, b" ignored 1"),
    }
}

fn put_seen(text: &mut [u8], seen: Seen) -> usize
    ensures { Puts text.old 0 (seen_text seen) text.new result }
{
    let at = text::put_text(text, 0, b"event level ");
    let at = text::put_hex(text, at, seen.level, 1);
    let at = put_halted(text, at, seen.halted, seen.interrupt);
    let at = put_captured(text, at, seen.captured);
    put_halting(text, at, seen.halting)
}

pub fn put_event(text: &mut [u8], outcome: Result<Seen, Ground>) -> usize
    ensures { Puts text.old 0 (event_text outcome) text.new result }
{
    match outcome {
        Err(ground) => put_refusal(text, ground),
        Ok(seen) => put_seen(text, seen),
    }
}

fn put_pressed(text: &mut [u8], pressed: Pressed) -> usize
    ensures { Puts text.old 0 (pressed_text pressed) text.new result }
{
    let at = text::put_text(text, 0, b"breakpoint");
    put_halted(text, at, pressed.halted, pressed.interrupt)
}

pub fn put_breakpoint(text: &mut [u8], outcome: Result<Pressed, Ground>) -> usize
    ensures { Puts text.old 0 (breakpoint_text outcome) text.new result }
{
    match outcome {
        Err(ground) => put_refusal(text, ground),
        Ok(pressed) => put_pressed(text, pressed),
    }
}

// The byte so many places after another one, and 0 beyond the end.
fn byte_of(memory: &[u8], from: usize, i: usize) -> u32
    ensures { result ≡ get_or memory.now (from + i) 0 }
{
    memory
        .get(from.saturating_add(i))
        .map_or(0, |byte| u32::from(*byte))
}

fn put_memory(memory: &[u8], from: usize, count: u32, text: &mut [u8], at: usize) -> usize
    ensures { Puts text.old at (bytes_text memory.now from count) text.new result }
{
    let mut to = at;
    for i in 0..count as usize {
        to = text::put_hex(text, to, byte_of(memory, from, i), 2);
    }
    to
}

// `peek HEX`: so many bytes from a place on.
pub fn put_peek(text: &mut [u8], memory: &[u8], from: usize, count: u32) -> usize
    ensures { Puts text.old 0 (peek_text memory.now from count) text.new result }
{
    let at = text::put_text(text, 0, b"peek ");
    put_memory(memory, from, count, text, at)
}
