// The control and the general registers (01, "Packets").
#![tactic(auto)]

ghost use Rattle.std.specs.Prelude.{◌≡◌, ◌%◌, get_or};
ghost use Rattle.control.specs.Control.{control_index, control_listed, control_fetched, control_written, general_written};

use board::Board;

// The index among the ten control registers; 10 for a number that is none of them.
#[tactic(auto, unfolding(crate::specs::Control::control_index))]
fn index_of(number: u32) -> usize
    ensures { result ≡ control_index number }
{
    match number {
        0x002 => 0,
        0x004 => 1,
        0x005 => 2,
        0x801 => 3,
        0x804 => 4,
        0x805 => 5,
        0x806 => 6,
        0x80E => 7,
        0x80F => 8,
        0xC04 => 9,
        _ => 10,
    }
}

pub fn general_of(board: Board, n: u32) -> u32
    ensures { result ≡ get_or board.registers.general (n % 16) 0 }
{
    board.registers.general[(n % 16) as usize]
}

pub fn is_listed(number: u32) -> bool
    ensures { result ≡ control_listed number }
{
    index_of(number) < 10
}

#[tactic(auto, unfolding(crate::specs::Control::control_fetched))]
pub fn fetch_control(board: Board, number: u32) -> Option<u32>
    ensures { result ≡ control_fetched board number }
{
    board.registers.control.get(index_of(number)).copied()
}

#[tactic(auto, unfolding(crate::specs::Control::control_written))]
pub fn set_control(board: Board, number: u32, value: u32) -> Board
    ensures { result ≡ control_written board number value }
{
    let mut b = board;
    let i = index_of(number);
    if i < 10 {
        b.registers.control[i] = value;
    }
    b
}

pub fn set_general(board: Board, n: u32, value: u32) -> Board
    ensures { result ≡ general_written board n value }
{
    let mut b = board;
    b.registers.general[(n % 16) as usize] = value;
    b
}
