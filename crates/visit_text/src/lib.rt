// The desk's language, `gateway`: the text of packets, of what was read and of how the visit ended.
#![tactic(auto)]

ghost use Rattle.text.specs.Text.{Puts};
ghost use Rattle.visit_text.specs.VisitText.{control_text, not_read_text, packet_text, read_text, reason_text, register_text, result_text, subject_text};
ghost use Rattle.visit_text.specs.VisitText.{table_text, value_text};

use readings::Outcome;
use text::{put_byte, put_decimal, put_hex, put_text};
use visit::Reason;

// `packet X`
pub fn put_packet(text: &mut [u8], word: u32) -> usize
    ensures { Puts text.old 0 (packet_text word) text.new result }
{
    let at = put_text(text, 0, b"packet ");
    put_hex(text, at, word, 5)
}

fn put_register(text: &mut [u8], at: usize, j: u32) -> usize
    ensures { Puts text.old at (register_text j) text.new result }
{
    if j < 8 {
        let at = put_text(text, at, b"register d");
        return put_hex(text, at, j, 1);
    }
    let at = put_text(text, at, b"register a");
    put_hex(text, at, j - 8, 1)
}

fn put_control(text: &mut [u8], at: usize, number: u32) -> usize
    ensures { Puts text.old at (control_text number) text.new result }
{
    let at = put_text(text, at, b"control ");
    put_hex(text, at, number, 3)
}

fn put_place(text: &mut [u8], at: usize, address: u32) -> usize
    ensures { Puts text.old at (table_text address) text.new result }
{
    let at = put_text(text, at, b"table ");
    put_hex(text, at, address, 8)
}

// What result j is of.
fn put_subject(text: &mut [u8], at: usize, address: u32, j: u32) -> usize
    ensures { Puts text.old at (subject_text address j) text.new result }
{
    match j {
        0..16 => put_register(text, at, j),
        16..26 => put_control(text, at, asked::control_number(j - 16)),
        26 => put_text(text, at, b"csr"),
        _ => put_place(text, at, asked::address_at(address, j - 27)),
    }
}

// Three arms are request_text's: one function would make gateway stand on that crate and on the text of refusals, for three lines.
fn put_value(text: &mut [u8], at: usize, outcome: Outcome) -> usize
    ensures { Puts text.old at (value_text outcome) text.new result }
{
    match outcome {
        Outcome::Value(value) => put_hex(text, at, value, 8),
        Outcome::Complete => put_text(text, at, b"complete"),
        Outcome::BusError => put_text(text, at, b"bus-error"),
        Outcome::Illegal => put_text(text, at, b"illegal"),
    }
}

// A line for result j, behind those before it.
pub fn put_result(text: &mut [u8], at: usize, address: u32, j: u32, outcome: Outcome) -> usize
    ensures { Puts text.old at (result_text address j outcome) text.new result }
{
    let at = put_subject(text, at, address, j);
    let at = put_byte(text, at, b' ');
    let at = put_value(text, at, outcome);
    put_byte(text, at, b'\n')
}

// `read packets N`
pub fn put_read(text: &mut [u8], at: usize, packets: u32) -> usize
    ensures { Puts text.old at (read_text packets) text.new result }
{
    let at = put_text(text, at, b"read packets ");
    put_decimal(text, at, packets as usize)
}

fn put_reason(text: &mut [u8], at: usize, reason: Reason) -> usize
    ensures { Puts text.old at (reason_text reason) text.new result }
{
    match reason {
        Reason::Late => put_text(text, at, b"late"),
        Reason::NotReady => put_text(text, at, b"not-ready"),
        Reason::NoReply => put_text(text, at, b"no-reply"),
        Reason::WordTooLarge => put_text(text, at, b"word"),
        Reason::ImpossibleReply => put_text(text, at, b"reply"),
    }
}

// `not-read packet N REASON`
pub fn put_not_read(text: &mut [u8], packet: u32, reason: Reason) -> usize
    ensures { Puts text.old 0 (not_read_text packet reason) text.new result }
{
    let at = put_text(text, 0, b"not-read packet ");
    let at = put_decimal(text, at, packet as usize);
    let at = put_byte(text, at, b' ');
    put_reason(text, at, reason)
}
