// A run of `waits` (docs/waits.md): the lines of a file at one W.
#![tactic(auto)]

ghost use Rattle.std.specs.Prelude.{◌≤◌, ◌≡◌, length};
ghost use Rattle.text.specs.Text.{Puts};
ghost use Rattle.board.specs.Board.{setting_made};
ghost use Rattle.answers.specs.Bench.{left};
ghost use Rattle.waits_run.specs.WaitsRun.{start_at, state_line, RunSo};

use answers::Bench;
use board::Board;
use text::put_byte;
use waits_lines::take_lines;

// A run at one W: where its lines end in the text, its packets; whether all lines of the file were taken, and where the first begins that was not.
// A flag and a place, and no Option: the place is told in both cases (RunSo).
#[derive(Clone, Copy, Debug, PartialEq, Eq)]
pub struct Ran {
    pub end: usize,
    pub packets: usize,
    pub taken: bool,
    pub stray: usize,
}

// A fresh board of that W, or as `make` has it of W = 0 for one above 15; nothing lent, all bytes zero.
fn start(w: u32, memory: &mut [u8]) -> Bench
    ensures { left result memory.new ≡ start_at (length memory.old) (setting_made w) }
{
    let size = memory.len();
    lent::clear(memory, size);
    let made = board::make(w);
    Bench {
        board: made.board,
        place: made.place,
        lent: 0,
    }
}

// The line of the state, told with W = 0, behind what the text holds already.
fn put_state_line(text: &mut [u8], at: usize, bench: Bench) -> usize
    requires { at ≤ length text.old }
    ensures { Puts text.old at (state_line bench) text.new result }
{
    let told = Board {
        w: 0,
        ..bench.board
    };
    let count = state_line::put_state(&mut text[at..], told, bench.place);
    put_byte(text, at + count, b'\n')
}

pub fn run_at(w: u32, input: &[u8], memory: &mut [u8], text: &mut [u8]) -> Ran
    ensures { RunSo (setting_made w) input.now memory.old text.old result memory.new text.new }
{
    let bench = start(w, memory);
    let gone = take_lines(input, bench, memory, text);
    Ran {
        end: put_state_line(text, gone.end, gone.bench),
        packets: gone.packets,
        taken: gone.taken,
        stray: gone.stray,
    }
}
