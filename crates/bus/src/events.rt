// What an event is refused for (01, "Events and firing").
ghost use Rattle.std.specs.Prelude.{◌≡◌};
ghost use Rattle.bus.specs.Events.{reserved_size, event_verdict};

use board::{Board, Place};
use comparators::BusAccess;
use grounds::Ground;
use trigger::Event;

fn is_reserved(bus: Option<BusAccess>) -> bool
    ensures { result ≡ reserved_size bus }
{
    match bus {
        None => false,
        Some(access) => comparators::lanes::size_field(access) == 3,
    }
}

#[tactic(auto, unfolding(crate::specs::Events::event_verdict))]
pub fn judge_event(board: Board, place: Place, event: Event) -> Result<(), Ground>
    ensures { result ≡ event_verdict board place event }
{
    if !ranges::is_in_range(board, place) {
        return Err(Ground::StateOutOfRange);
    }
    if board.status.halted {
        return Err(Ground::EventWhileHalted);
    }
    if event.pc % 2 != 0 {
        return Err(Ground::OddPc);
    }
    if is_reserved(event.bus) {
        return Err(Ground::ReservedSize);
    }
    Ok(())
}
