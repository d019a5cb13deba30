// The board watches the bus: the event and the breakpoint input (01, "Events and firing").
#![tactic(auto)]

ghost use Rattle.bus.specs.Events.{EventMeets, BreakpointMeets};

use board::{Board, Place};
use firing::{Pressed, Seen};
use grounds::Ground;
use trigger::Event;

mod events;

// What is answered, and the board that is left.
#[derive(Clone, Copy, Debug, PartialEq, Eq)]
pub struct Answer<T> {
    pub outcome: Result<T, Ground>,
    pub board: Board,
}

pub fn take_event(board: Board, place: Place, event: Event) -> Answer<Seen>
    ensures { EventMeets board place event result }
{
    match events::judge_event(board, place, event) {
        Err(ground) => Answer {
            outcome: Err(ground),
            board,
        },
        Ok(()) => {
            let fired = firing::fire(board.status, board.debug, event);
            let seen = firing::see(board.status, board.debug, event, fired);
            let status = firing::status_after(board.status, board.debug, event, fired);
            Answer {
                outcome: Ok(seen),
                board: Board { status, ..board },
            }
        }
    }
}

#[tactic(auto, unfolding(crate::specs::Events::breakpoint_verdict))]
pub fn press_breakpoint(board: Board, place: Place) -> Answer<Pressed>
    ensures { BreakpointMeets board place result }
{
    if !ranges::is_in_range(board, place) {
        return Answer {
            outcome: Err(Ground::StateOutOfRange),
            board,
        };
    }
    let pressed = firing::press(board.status, board.debug);
    let status = firing::status_pressed(board.status, pressed);
    Answer {
        outcome: Ok(pressed),
        board: Board { status, ..board },
    }
}
