// One step of a walk, on the trace and a cursor: covered, so that the walk itself is thin.
#![tactic(auto)]

ghost use Rattle.std.specs.Prelude.{◌≡◌, ◌+◌, ◌<◌, true, false};
ghost use Rattle.cycle.specs.CycleItems.{of_value, of_cycle};
ghost use Rattle.steps.specs.WalkStep.{cursor_at, value_next, handing, step_read, step_of, StartMeets};

use cycle::{Carried, Item};
use trace::Refused;

// Where a walk stands: how its start was judged, the next cycle and what it finds under way, and
// whether that cycle's value is past.
#[derive(Clone, Copy)]
pub struct Cursor {
    pub start: Result<usize, Refused>,
    pub cycle: usize,
    pub carried: Carried,
    pub past: bool,
}

#[derive(Clone, Copy)]
pub struct Step {
    pub cursor: Cursor,
    pub handed: Result<Option<Item>, Refused>,
}

// Where a walk of a trace starts.
pub fn start_at(trace: &[u8]) -> Cursor
    ensures { StartMeets trace.now result }
{
    Cursor {
        start: trace::judge_trace(trace),
        cycle: 0,
        carried: cycle::nothing_carried(),
        past: false,
    }
}

fn is_value_next(due: u8, past: bool) -> bool
    ensures { result ≡ value_next due past }
{
    !past && due == 1
}

// A value is handed out, and the walk stays at its cycle for the cycle's own item.
fn hand_value(trace: &[u8], start: Result<usize, Refused>, i: usize, carried: Carried) -> Step
    ensures { result ≡ handing (cursor_at start i carried true) (of_value trace.now i carried.marker) }
{
    let cursor = Cursor {
        start,
        cycle: i,
        carried,
        past: true,
    };
    Step {
        cursor,
        handed: Ok(Some(Item::of_value(trace, i, carried.marker))),
    }
}

// A cycle's own item is handed out, and the walk goes on to the next cycle.
fn hand_own(start: Result<usize, Refused>, i: usize, next: Carried, pst: u8) -> Step
    requires { i < 18446744073709551615 }
    ensures { result ≡ handing (cursor_at start (i + 1) next false) (of_cycle i pst) }
{
    let cursor = Cursor {
        start,
        cycle: i + 1,
        carried: next,
        past: false,
    };
    Step {
        cursor,
        handed: Ok(Some(Item::of_cycle(i, pst))),
    }
}

// The next item from a cursor on, and the cursor after it.
fn find_item(trace: &[u8], cursor: Cursor) -> Step
    ensures { result ≡ step_read trace.now cursor }
{
    let start = cursor.start;
    let mut carried = cursor.carried;
    let mut past = cursor.past;
    for i in cursor.cycle..trace.len() {
        if is_value_next(carried.due, past) {
            return hand_value(trace, start, i, carried);
        }
        let pst = trace[i] / 16;
        let next = cycle::after_cycle(carried, pst);
        if cycle::gives_own(carried.run, pst) {
            return hand_own(start, i, next, pst);
        }
        carried = next;
        past = false;
    }
    let cursor = Cursor {
        cycle: cursor.cycle.max(trace.len()),
        carried,
        past,
        ..cursor
    };
    Step {
        cursor,
        handed: Ok(None),
    }
}

// One step of the walk, on the trace and a cursor.
pub fn step_at(trace: &[u8], cursor: Cursor) -> Step
    ensures { result ≡ step_of trace.now cursor }
{
    match cursor.start {
        Err(refused) => Step {
            cursor,
            handed: Err(refused),
        },
        Ok(_) => find_item(trace, cursor),
    }
}
