// The command words by table (02, [8]): an entry for each upper byte that has commands, in the chapter's order, and one for all others.
ghost use Rattle.std.specs.Prelude.{◌≡◌};
ghost use Rattle.command.specs.Command.{decoded};

use crate::lines::{allow, debug_at, no_operation, size_in};
use crate::{Base, Command, Source, Target};

// A line's digits, from the left. Four for the numbers that bits 3 to 0 of a lower byte may be, a bit for each; one for the sizes that
// bits 7 and 6 may be, a bit for each; operand words, then result words, a digit for a byte, a word and a longword.
pub const RDREG: u64 = 0xFFFF_4_000_002;

pub const WDREG: u64 = 0xFFFF_4_002_000;

pub const READ: u64 = 0x0001_7_222_112;

pub const WRITE: u64 = 0x0001_7_334_000;

pub const DUMP: u64 = 0x0001_7_000_112;

pub const FILL: u64 = 0x0001_7_112_000;

pub const GO: u64 = 0x0001_1_000_000;

pub const NOP: u64 = 0x0003_1_000_000;

pub const RCREG: u64 = 0x0001_4_002_002;

pub const WCREG: u64 = 0x0001_4_004_000;

pub const RDMREG: u64 = 0x0001_4_000_002;

pub const WDMREG: u64 = 0xF3E1_4_002_000;

// An entry: the first word of its upper byte; its line; the command of a word whose lower byte the line has.
pub fn decode(word: u32) -> Command
    ensures { result ≡ decoded word }
{
    let lower = (word % 256) as u8;
    let n = lower % 16;
    match word - word % 256 {
        0x2100 => allow(RDREG, lower, Command::Show(Source::General(n))),
        0x2000 => allow(WDREG, lower, Command::Change(Target::General(n))),
        0x1900 => allow(READ, lower, Command::Load(size_in(lower), Base::Address)),
        0x1800 => allow(WRITE, lower, Command::Store(size_in(lower), Base::Address)),
        0x1D00 => allow(DUMP, lower, Command::Load(size_in(lower), Base::Pointer)),
        0x1C00 => allow(FILL, lower, Command::Store(size_in(lower), Base::Pointer)),
        0x0C00 => allow(GO, lower, Command::Change(Target::Run)),
        0x0000 => allow(NOP, lower, no_operation(n)),
        0x2900 => allow(RCREG, lower, Command::Show(Source::Control)),
        0x2800 => allow(WCREG, lower, Command::Change(Target::Control)),
        0x2D00 => allow(RDMREG, lower, Command::Show(Source::Csr)),
        0x2C00 => allow(WDMREG, lower, Command::Change(Target::Debug(debug_at(n)))),
        _ => Command::Unknown,
    }
}
