// When a level of TDR fires (01, "Events and firing").
#![tactic(auto)]

ghost use Rattle.std.specs.Prelude.{◌≡◌};
ghost use Rattle.trigger.specs.Fired.{fires, fired_level};

use comparators::{BusAccess, Level};
use halting::Privilege;

pub mod levels;

// One instruction start; the mark tells whether the instruction is HALT.
#[derive(Clone, Copy, Debug, PartialEq, Eq)]
pub struct Event {
    pub pc: u32,
    pub bus: Option<BusAccess>,
    pub mark: Option<Privilege>,
}

#[tactic(auto, unfolding(crate::specs::Fired::fires))]
fn is_fired(level: Level, debug: board::Debug, event: Event) -> bool
    ensures { result ≡ fires level debug event }
{
    let pc = groups::pc_group(level, debug, event.pc);
    let address = groups::address_group(level, debug, event.bus);
    level.ebl & groups::join(level.t, pc, address)
}

// The level that the event fires, or 0.
#[tactic(auto, unfolding(crate::specs::Fired::fired_level))]
pub fn fired_level(bstat: u32, debug: board::Debug, event: Event) -> u32
    ensures { result ≡ fired_level bstat debug event }
{
    match bstat {
        1 if is_fired(levels::level_one(debug.tdr), debug, event) => 1,
        5 if is_fired(levels::level_two(debug.tdr), debug, event) => 2,
        _ => 0,
    }
}
