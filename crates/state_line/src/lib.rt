// The line `state`: all that the board and the place hold.
#![tactic(auto)]

ghost use Rattle.std.specs.Prelude.{◌≡◌};
ghost use Rattle.text.specs.Text.{Puts};
ghost use Rattle.state_line.specs.StateText.{fields_text, status_fields, debug_fields, data_fields, address_fields, control_fields, sync_fields};
ghost use Rattle.state_line.specs.StateText.{registers_text, phase_text, chain_text, place_text, fault_text, state_text};
ghost use Rattle.state_line.specs.StateTextMirror.{mark_text, next_after, form_text};

use board::{Board, Chain, Debug, Phase, Place};

// Where the text goes on, and the next value.
#[derive(Clone, Copy, Debug, PartialEq, Eq)]
pub struct Put {
    pub at: usize,
    pub next: usize,
}

// A byte of a form, or where it is a number of digits the next value.
fn put_mark(text: &mut [u8], at: usize, mark: u8, next: usize, values: &[u32]) -> Put
    ensures { Puts text.old at (mark_text mark next values.now) text.new result.at
        × (result.next ≡ next_after mark next values.now) }
{
    if 8 < mark {
        let at = text::put_byte(text, at, mark);
        return Put { at, next };
    }
    if next < values.len() {
        let at = text::put_hex(text, at, values[next], mark as u32);
        return Put { at, next: next + 1 };
    }
    Put { at, next }
}

// A form with the values from one of them on in their places.
fn put_fields(text: &mut [u8], at: usize, form: &[u8], first: usize, values: &[u32]) -> usize
    ensures { Puts text.old at (form_text form.now first values.now) text.new result }
{
    let mut put = Put { at, next: first };
    for mark in form {
        put = put_mark(text, put.at, *mark, put.next, values);
    }
    put.at
}

fn put_status(text: &mut [u8], at: usize, board: Board) -> usize
    ensures { Puts text.old at (fields_text (status_fields board)) text.new result }
{
    let values = [board.w, u32::from(board.status.halted), csr::csr_of(board)];
    put_fields(text, at, b"w=\x01 halted=\x01 csr=\x08 ", 0, &values)
}

fn put_debug(text: &mut [u8], at: usize, debug: Debug) -> usize
    ensures { Puts text.old at (fields_text (debug_fields debug)) text.new result }
{
    let values = [
        debug.tdr,
        debug.aatr as u32,
        debug.baar as u32,
        debug.pbr,
        debug.pbmr,
        debug.abhr,
        debug.ablr,
        debug.dbr,
        debug.dbmr,
    ];
    let form =
        b"tdr=\x08 aatr=\x04 baar=\x02 pbr=\x08 pbmr=\x08 abhr=\x08 ablr=\x08 dbr=\x08 dbmr=\x08 ";
    put_fields(text, at, form, 0, &values)
}

fn put_data(text: &mut [u8], at: usize, general: [u32; 16]) -> usize
    ensures { Puts text.old at (fields_text (data_fields general)) text.new result }
{
    let form = b"d0=\x08 d1=\x08 d2=\x08 d3=\x08 d4=\x08 d5=\x08 d6=\x08 d7=\x08 ";
    put_fields(text, at, form, 0, &general)
}

fn put_addresses(text: &mut [u8], at: usize, general: [u32; 16]) -> usize
    ensures { Puts text.old at (fields_text (address_fields general)) text.new result }
{
    let form = b"a0=\x08 a1=\x08 a2=\x08 a3=\x08 a4=\x08 a5=\x08 a6=\x08 a7=\x08 ";
    put_fields(text, at, form, 8, &general)
}

fn put_control(text: &mut [u8], at: usize, control: [u32; 10]) -> usize
    ensures { Puts text.old at (fields_text (control_fields control)) text.new result }
{
    let form =
        b"cacr=\x08 acr0=\x08 acr1=\x08 vbr=\x08 macsr=\x08 mask=\x08 acc=\x08 sr=\x08 pc=\x08 rambar=\x08 ";
    put_fields(text, at, form, 0, &control)
}

fn put_registers(text: &mut [u8], at: usize, board: Board) -> usize
    ensures { Puts text.old at (registers_text board) text.new result }
{
    let at = put_status(text, at, board);
    let at = put_debug(text, at, board.debug);
    let at = put_data(text, at, board.registers.general);
    let at = put_addresses(text, at, board.registers.general);
    put_control(text, at, board.registers.control)
}

fn put_sync(text: &mut [u8], at: usize, sync: bool) -> usize
    ensures { Puts text.old at (fields_text (sync_fields sync)) text.new result }
{
    put_fields(text, at, b"sync=\x01 ", 0, &[u32::from(sync)])
}

fn put_phase(text: &mut [u8], at: usize, phase: Phase) -> usize
    ensures { Puts text.old at (phase_text phase) text.new result }
{
    match phase {
        Phase::Rest => text::put_text(text, at, b"phase=rest"),
        Phase::Due(_, left, _) => {
            let at = text::put_text(text, at, b"phase=operands:");
            text::put_number(text, at, left as usize)
        }
        Phase::Waiting(_, left, _, _) => {
            let at = text::put_text(text, at, b"phase=waiting:");
            text::put_number(text, at, left as usize)
        }
        Phase::Upper(low) => {
            let at = text::put_text(text, at, b"phase=low:");
            text::put_hex(text, at, low as u32, 4)
        }
    }
}

fn put_chain(text: &mut [u8], at: usize, chain: Chain) -> usize
    ensures { Puts text.old at (chain_text chain) text.new result }
{
    match chain {
        Chain::Off => text::put_text(text, at, b" chain=none"),
        Chain::Dumping => text::put_text(text, at, b" chain=dump"),
        Chain::Filling => text::put_text(text, at, b" chain=fill"),
    }
}

fn put_place(text: &mut [u8], at: usize, place: Place) -> usize
    ensures { Puts text.old at (place_text place) text.new result }
{
    let at = put_phase(text, at, place.phase);
    let at = put_chain(text, at, place.chain);
    let at = text::put_text(text, at, b" pointer=");
    let at = text::put_hex(text, at, place.pointer, 5);
    let at = text::put_text(text, at, b" next=");
    text::put_hex(text, at, place.next, 5)
}

fn put_fault(text: &mut [u8], at: usize, fault: Option<u32>) -> usize
    ensures { Puts text.old at (fault_text fault) text.new result }
{
    match fault {
        None => text::put_text(text, at, b" fault=none"),
        Some(first) => {
            let at = text::put_text(text, at, b" fault=");
            text::put_hex(text, at, first, 8)
        }
    }
}

pub fn put_state(text: &mut [u8], board: Board, place: Place) -> usize
    ensures { Puts text.old 0 (state_text board place) text.new result }
{
    let at = text::put_text(text, 0, b"state ");
    let at = put_registers(text, at, board);
    let at = put_sync(text, at, board.status.sync);
    let at = put_place(text, at, place);
    put_fault(text, at, board.fault)
}
