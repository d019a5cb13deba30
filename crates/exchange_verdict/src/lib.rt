// What an exchange is refused for (01, "Packets" and the pod's half).
#![tactic(auto)]

ghost use Rattle.std.specs.Prelude.{◌≡◌};
ghost use Rattle.board.specs.State.{state_of};
ghost use Rattle.exchange_verdict.specs.ExchangeVerdict.{exchange_verdict};

use board::{Board, Place};
use grounds::Ground;
use requests::Request;

#[tactic(auto, unfolding(crate::specs::ExchangeVerdict::exchange_verdict))]
pub fn judge_exchange(
    request: Request,
    board: Board,
    place: Place,
    memory: &[u8],
) -> Result<(), Ground>
    ensures { result ≡ exchange_verdict request (state_of board place memory.now) }
{
    if !requests::is_in_range(request) {
        return Err(Ground::RequestOutOfRange);
    }
    if !ranges::is_in_range(board, place) {
        return Err(Ground::StateOutOfRange);
    }
    if 65536 < memory.len() {
        return Err(Ground::MemoryTooLong);
    }
    Ok(())
}
