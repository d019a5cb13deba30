// The debug registers, and what each command leaves of the board (01, "Packets").
#![tactic(auto)]

ghost use Rattle.std.specs.Prelude.{◌≡◌};
ghost use Rattle.command.specs.declared.DebugRegister.TheVariants.{Tdr};
ghost use Rattle.command.specs.Command.{debug_number};
ghost use Rattle.registers.specs.Registers.{is, armed, debug_loaded, debug_written, board_after};

use board::{Board, Debug, Status};
use command::{Command, DebugRegister, Source, Target};

#[tactic(auto, unfolding(crate::specs::Registers::debug_loaded))]
fn write_debug(debug: Debug, register: DebugRegister, value: u32) -> Debug
    ensures { result ≡ debug_loaded (debug_number register) value debug }
{
    match register {
        DebugRegister::Csr => Debug {
            csr: csr::written_bits(value),
            ..debug
        },
        DebugRegister::Baar => Debug {
            baar: (value % 256) as u8,
            ..debug
        },
        DebugRegister::Aatr => Debug {
            aatr: (value % 65536) as u16,
            baar: (value % 256) as u8,
            ..debug
        },
        DebugRegister::Tdr => Debug {
            tdr: value,
            ..debug
        },
        DebugRegister::Pbr => Debug {
            pbr: value,
            ..debug
        },
        DebugRegister::Pbmr => Debug {
            pbmr: value,
            ..debug
        },
        DebugRegister::Abhr => Debug {
            abhr: value,
            ..debug
        },
        DebugRegister::Ablr => Debug {
            ablr: value,
            ..debug
        },
        DebugRegister::Dbr => Debug {
            dbr: value,
            ..debug
        },
        DebugRegister::Dbmr => Debug {
            dbmr: value,
            ..debug
        },
    }
}

fn is_tdr(register: DebugRegister) -> bool
    ensures { result ≡ is (debug_number register) Tdr }
{
    register == DebugRegister::Tdr
}

fn arm(status: Status, value: u32) -> Status
    ensures { result ≡ armed status value }
{
    Status {
        bstat: csr::flag_of(value / 8192 % 2 == 1),
        ..status
    }
}

#[tactic(auto, unfolding(crate::specs::Registers::debug_written))]
fn set_debug(board: Board, register: DebugRegister, value: u32) -> Board
    ensures { result ≡ debug_written board register value }
{
    let status = if is_tdr(register) {
        arm(board.status, value)
    } else {
        board.status
    };
    Board {
        debug: write_debug(board.debug, register, value),
        status,
        ..board
    }
}

pub fn board_after(command: Command, board: Board, address: u32, value: u32) -> Board
    ensures { result ≡ board_after command board address value }
{
    match command {
        Command::Show(Source::Csr) => Board {
            status: csr::after_csr_read(board.status),
            ..board
        },
        Command::Change(Target::General(n)) => control::set_general(board, u32::from(n), value),
        Command::Change(Target::Control) => control::set_control(board, address, value),
        Command::Change(Target::Debug(register)) => set_debug(board, register, value),
        Command::Change(Target::Run) => Board {
            status: csr::after_go(board.status),
            ..board
        },
        Command::Change(Target::Sync) => Board {
            status: csr::after_sync_pc(board.status),
            ..board
        },
        Command::Unknown
        | Command::Nop
        | Command::Load(_, _)
        | Command::Store(_, _)
        | Command::Show(Source::General(_) | Source::Control) => board,
    }
}
