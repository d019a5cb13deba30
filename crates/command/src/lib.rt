// The command words (01, "Packets", the table).
#![tactic(auto)]

ghost use Rattle.std.specs.Prelude.{◌≡◌};
ghost use Rattle.command.specs.Command.{operand_words, result_words, halted_only, waits};

use memory::Size;

mod lines;
mod table;

pub use table::decode;

// The replies that are no data (01, "Replies: ..").
pub const COMPLETE: u32 = 0x0FFFF;

pub const NOT_READY: u32 = 0x10000;

pub const BUS_ERROR: u32 = 0x10001;

pub const ILLEGAL: u32 = 0x1FFFF;

// The registers that WDMREG takes.
#[derive(Clone, Copy, Debug, PartialEq, Eq)]
pub enum DebugRegister {
    Csr,
    Baar,
    Aatr,
    Tdr,
    Pbr,
    Pbmr,
    Abhr,
    Ablr,
    Dbr,
    Dbmr,
}

// Where an access to memory begins: at the address sent, or at the pointer.
#[derive(Clone, Copy, Debug, PartialEq, Eq)]
pub enum Base {
    Address,
    Pointer,
}

// What a command shows of the board.
#[derive(Clone, Copy, Debug, PartialEq, Eq)]
pub enum Source {
    General(u8),
    Control,
    Csr,
}

// What a command changes of the board.
#[derive(Clone, Copy, Debug, PartialEq, Eq)]
pub enum Target {
    General(u8),
    Control,
    Debug(DebugRegister),
    Run,
    Sync,
}

// A command is what it does.
#[derive(Clone, Copy, Debug, PartialEq, Eq)]
pub enum Command {
    Unknown,
    Nop,
    // READ; DUMP from the pointer.
    Load(Size, Base),
    // WRITE; FILL from the pointer.
    Store(Size, Base),
    // RDREG/RAREG, RCREG, RDMREG.
    Show(Source),
    // WDREG/WAREG, WCREG, WDMREG, GO, SYNC_PC.
    Change(Target),
}

pub fn operand_count(command: Command) -> u32
    ensures { result ≡ operand_words command }
{
    lines::counts_of(command).operands
}

pub fn result_count(command: Command) -> u32
    ensures { result ≡ result_words command }
{
    lines::counts_of(command).results
}

pub fn needs_halted(command: Command) -> bool
    ensures { result ≡ halted_only command }
{
    matches!(
        command,
        Command::Show(Source::General(_) | Source::Control)
            | Command::Change(Target::General(_) | Target::Control | Target::Run)
    )
}

pub fn does_wait(command: Command) -> bool
    ensures { result ≡ waits command }
{
    matches!(
        command,
        Command::Load(_, _)
            | Command::Store(_, _)
            | Command::Show(Source::Control)
            | Command::Change(Target::Control)
    )
}
