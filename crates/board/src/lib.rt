// The board, the place at which a pod talks to it, and making them (01, "The board and its parts").
#![tactic(auto)]

ghost use Rattle.std.specs.Prelude.{◌≡◌};
ghost use Rattle.board.specs.Board.{fresh_board, fresh_place, MakingMeets};
ghost use Rattle.board.specs.State.{standing_of};
ghost use Rattle.board.specs.Setters.{with_fault, place_with};

use command::Command;
use grounds::Ground;

// All that a bus event or the breakpoint input may change.
#[derive(Clone, Copy, Debug, PartialEq, Eq)]
pub struct Status {
    pub halted: bool,
    pub fof: bool,
    pub trg: bool,
    pub halt: bool,
    pub bkpt: bool,
    pub bstat: u32,
    // A SYNC_PC is pending.
    pub sync: bool,
}

// D0 to D7 and A0 to A7; the control registers in the order of document 01.
#[derive(Clone, Copy, Debug, PartialEq, Eq)]
pub struct Registers {
    pub general: [u32; 16],
    pub control: [u32; 10],
}

// Of CSR the bits that are written; "AATR keeps the low 16 bits, BAAR the low 8".
#[derive(Clone, Copy, Debug, PartialEq, Eq)]
pub struct Debug {
    pub csr: u32,
    pub baar: u8,
    pub aatr: u16,
    pub tdr: u32,
    pub pbr: u32,
    pub pbmr: u32,
    pub abhr: u32,
    pub ablr: u32,
    pub dbr: u32,
    pub dbmr: u32,
}

// What all who talk to the board share.
#[derive(Clone, Copy, Debug, PartialEq, Eq)]
pub struct Board {
    pub w: u32,
    pub status: Status,
    pub registers: Registers,
    pub debug: Debug,
    pub fault: Option<u32>,
}

// The operand words taken, the last four, oldest first.
#[derive(Clone, Copy, Debug, Default, PartialEq, Eq)]
pub struct Operands {
    pub oldest: u16,
    pub older: u16,
    pub newer: u16,
    pub newest: u16,
}

#[derive(Clone, Copy, Debug, PartialEq, Eq)]
pub enum Phase {
    Rest,
    // The command, and the operand words still due.
    Due(Command, u32, Operands),
    // The command, the packets still to wait, the address and the data.
    Waiting(Command, u32, u32, u32),
    // The upper result word is the next reply; the low one is held.
    Upper(u16),
}

#[derive(Clone, Copy, Debug, PartialEq, Eq)]
pub enum Chain {
    Off,
    Dumping,
    Filling,
}

// What one who talks to the board has of his own.
#[derive(Clone, Copy, Debug, PartialEq, Eq)]
pub struct Place {
    pub phase: Phase,
    pub chain: Chain,
    pub pointer: u32,
    pub next: u32,
}

// What a command word is judged by.
#[derive(Clone, Copy, Debug, PartialEq, Eq)]
pub struct Standing {
    pub halted: bool,
    pub chain: Chain,
}

// Where the making is refused, a board of W = 0 stands in.
#[derive(Clone, Copy, Debug, PartialEq, Eq)]
pub struct Made {
    pub verdict: Result<(), Ground>,
    pub board: Board,
    pub place: Place,
}

#[tactic(auto, unfolding(crate::specs::Board::fresh_board))]
fn new_board(w: u32) -> Board
    ensures { result ≡ fresh_board w }
{
    Board {
        w,
        status: Status {
            halted: true,
            fof: false,
            trg: false,
            halt: false,
            bkpt: true,
            bstat: 0,
            sync: false,
        },
        registers: Registers {
            general: [0u32; 16],
            control: [0u32; 10],
        },
        debug: Debug {
            csr: 0,
            baar: 0x05,
            aatr: 0x0005,
            tdr: 0,
            pbr: 0,
            pbmr: 0,
            abhr: 0,
            ablr: 0,
            dbr: 0,
            dbmr: 0,
        },
        fault: None,
    }
}

#[tactic(auto, unfolding(crate::specs::Board::fresh_place))]
fn new_place() -> Place
    ensures { result ≡ fresh_place }
{
    Place {
        phase: Phase::Rest,
        chain: Chain::Off,
        pointer: 0,
        next: command::COMPLETE,
    }
}

pub fn make(w: u32) -> Made
    ensures { MakingMeets w result }
{
    if w <= 15 {
        return Made {
            verdict: Ok(()),
            board: new_board(w),
            place: new_place(),
        };
    }
    Made {
        verdict: Err(Ground::WaitTooLarge),
        board: new_board(0),
        place: new_place(),
    }
}

pub fn standing_of(board: Board, place: Place) -> Standing
    ensures { result ≡ standing_of board place }
{
    Standing {
        halted: board.status.halted,
        chain: place.chain,
    }
}

pub fn set_fault(board: Board, fault: Option<u32>) -> Board
    ensures { result ≡ with_fault board fault }
{
    Board { fault, ..board }
}

// A field that no packet changes would come from the place given.
pub fn set_place(place: Place, phase: Phase, chain: Chain, pointer: u32, next: u32) -> Place
    ensures { result ≡ place_with place phase chain pointer next }
{
    Place {
        phase,
        chain,
        pointer,
        next,
        ..place
    }
}
