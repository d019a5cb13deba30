// How a line of the table is read.
ghost use Rattle.std.specs.Prelude.{◌≡◌};
ghost use Rattle.command.specs.TableMirror.{Allows, counts_in, counts_of, debug_at, nop_or_sync, size_in, takes, words_for};

use crate::{Base, Command, DebugRegister, Source, Target, table};
use memory::Size;

// Where a line's digits begin, from the right; its result words come first.
const OPERANDS: u64 = 0x1000;

const SIZES: u64 = 0x100_0000;

const NUMBERS: u64 = 0x1000_0000;

fn takes(line: u64, lower: u8) -> bool
    ensures { result ≡ takes line lower }
{
    lower / 16 % 4 == 0
        && (line / SIZES >> (lower / 64)) % 2 == 1
        && (line / NUMBERS >> (lower % 16)) % 2 == 1
}

// The command, if the line has the lower byte.
pub fn allow(line: u64, lower: u8, command: Command) -> Command
    ensures { Allows line lower command result }
{
    if takes(line, lower) {
        command
    } else {
        Command::Unknown
    }
}

pub fn size_in(lower: u8) -> Size
    ensures { result ≡ size_in lower }
{
    match lower / 64 {
        0 => Size::Byte,
        1 => Size::Word,
        _ => Size::Long,
    }
}

// The last for every number that WDMREG does not take.
pub fn debug_at(n: u8) -> DebugRegister
    ensures { result ≡ debug_at n }
{
    match n {
        0x00 => DebugRegister::Csr,
        0x05 => DebugRegister::Baar,
        0x06 => DebugRegister::Aatr,
        0x07 => DebugRegister::Tdr,
        0x08 => DebugRegister::Pbr,
        0x09 => DebugRegister::Pbmr,
        0x0C => DebugRegister::Abhr,
        0x0D => DebugRegister::Ablr,
        0x0E => DebugRegister::Dbr,
        _ => DebugRegister::Dbmr,
    }
}

pub fn no_operation(n: u8) -> Command
    ensures { result ≡ nop_or_sync n }
{
    match n {
        0 => Command::Nop,
        _ => Command::Change(Target::Sync),
    }
}

// How many words a command has.
#[derive(Clone, Copy, Debug, PartialEq, Eq)]
pub struct Counts {
    pub operands: u32,
    pub results: u32,
}

fn words_for(digits: u64, size: Size) -> u32
    ensures { result ≡ words_for digits size }
{
    match size {
        Size::Byte => (digits / 256 % 16) as u32,
        Size::Word => (digits / 16 % 16) as u32,
        Size::Long => (digits % 16) as u32,
    }
}

fn counts_in(line: u64, size: Size) -> Counts
    ensures { result ≡ counts_in line size }
{
    Counts {
        operands: words_for(line / OPERANDS, size),
        results: words_for(line, size),
    }
}

// By the size that stands in the command's word.
pub fn counts_of(command: Command) -> Counts
    ensures { result ≡ counts_of command }
{
    match command {
        Command::Unknown => Counts {
            operands: 0,
            results: 0,
        },
        Command::Nop => counts_in(table::NOP, Size::Byte),
        Command::Load(size, Base::Address) => counts_in(table::READ, size),
        Command::Load(size, Base::Pointer) => counts_in(table::DUMP, size),
        Command::Store(size, Base::Address) => counts_in(table::WRITE, size),
        Command::Store(size, Base::Pointer) => counts_in(table::FILL, size),
        Command::Show(Source::General(_)) => counts_in(table::RDREG, Size::Long),
        Command::Show(Source::Control) => counts_in(table::RCREG, Size::Long),
        Command::Show(Source::Csr) => counts_in(table::RDMREG, Size::Long),
        Command::Change(Target::General(_)) => counts_in(table::WDREG, Size::Long),
        Command::Change(Target::Control) => counts_in(table::WCREG, Size::Long),
        Command::Change(Target::Debug(_)) => counts_in(table::WDMREG, Size::Long),
        Command::Change(Target::Run) => counts_in(table::GO, Size::Byte),
        Command::Change(Target::Sync) => counts_in(table::NOP, Size::Byte),
    }
}
