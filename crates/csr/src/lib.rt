// CSR: what it shows, and what reading it, GO and SYNC_PC leave of the status (01, "Packets").
#![tactic(auto)]

ghost use Rattle.std.specs.Prelude.{◌≡◌, ◌≤◌};
ghost use Rattle.csr.specs.Csr.{flag, csr_written, csr_value, bstat_read, after_csr_read, after_go, after_sync_pc};

use board::{Board, Status};

pub fn flag_of(x: bool) -> u32
    ensures value { result ≡ flag x }
    ensures upper_bound { result ≤ 1 }
{
    u32::from(x)
}

pub fn written_bits(value: u32) -> u32
    ensures value { result ≡ csr_written value }
    ensures upper_bound { result ≤ 0x0007FF70 }
{
    value & 0x0007FF70
}

#[tactic(auto, unfolding(crate::specs::Csr::csr_value))]
pub fn csr_of(board: Board) -> u32
    ensures { result ≡ csr_value board }
{
    let status = board.status;
    status.bstat % 16 * 0x10000000
        + flag_of(status.fof) * 0x8000000
        + flag_of(status.trg) * 0x4000000
        + flag_of(status.halt) * 0x2000000
        + flag_of(status.bkpt) * 0x1000000
        + 0x100000
        + written_bits(board.debug.csr)
}

#[tactic(auto, unfolding(crate::specs::Csr::bstat_read))]
fn bstat_after_read(bstat: u32) -> u32
    ensures { result ≡ bstat_read bstat }
{
    match bstat {
        2 | 6 => 0,
        _ => bstat,
    }
}

pub fn after_csr_read(status: Status) -> Status
    ensures { result ≡ after_csr_read status }
{
    Status {
        fof: false,
        trg: false,
        halt: false,
        bkpt: false,
        bstat: bstat_after_read(status.bstat),
        ..status
    }
}

pub fn after_go(status: Status) -> Status
    ensures { result ≡ after_go status }
{
    Status {
        halted: false,
        trg: false,
        halt: false,
        bkpt: false,
        ..status
    }
}

pub fn after_sync_pc(status: Status) -> Status
    ensures { result ≡ after_sync_pc status }
{
    Status {
        sync: true,
        ..status
    }
}
