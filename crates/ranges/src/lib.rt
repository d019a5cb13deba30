// The ranges of the board and of a place (01, "Refusal numbers": 12).
#![tactic(auto)]

ghost use Rattle.std.specs.Prelude.{◌≡◌};
ghost use Rattle.ranges.specs.Ranges.{bstat_in_range, phase_in_range, board_in_range, place_in_range, in_range};

use board::{Board, Phase, Place};

#[tactic(auto, unfolding(crate::specs::Ranges::bstat_in_range))]
fn is_bstat(bstat: u32) -> bool
    ensures { result ≡ bstat_in_range bstat }
{
    matches!(bstat, 0 | 1 | 2 | 5 | 6)
}

fn is_phase_in_range(phase: Phase, w: u32) -> bool
    ensures { result ≡ phase_in_range w phase }
{
    match phase {
        Phase::Rest | Phase::Upper(_) => true,
        Phase::Due(command, left, _) => 1 <= left && left <= command::operand_count(command),
        Phase::Waiting(command, left, _, _) => {
            1 <= left && left <= w && command::does_wait(command)
        }
    }
}

fn is_board_in_range(board: Board) -> bool
    ensures { result ≡ board_in_range board }
{
    board.w <= 15 && is_bstat(board.status.bstat)
}

fn is_place_in_range(place: Place, w: u32) -> bool
    ensures { result ≡ place_in_range w place }
{
    is_phase_in_range(place.phase, w) && place.next <= 0x1FFFF && place.pointer <= 65536
}

#[tactic(auto, unfolding(crate::specs::Ranges::in_range))]
pub fn is_in_range(board: Board, place: Place) -> bool
    ensures { result ≡ in_range board place }
{
    is_board_in_range(board) && is_place_in_range(place, board.w)
}
