// A walk that borrows the trace and remembers its place, one item a step.
#![tactic(auto)]

ghost use Rattle.std.specs.Prelude.{◌≡◌};
ghost use Rattle.steps.specs.WalkStep.{StartMeets, step_of};
ghost use Rattle.walk.specs.Walk.{WalkStarts, stepped_of};

use cycle::Item;
use steps::{Cursor, Step};
use trace::Refused;

#[derive(Clone, Copy)]
pub struct Walk<'a> {
    pub trace: &'a [u8],
    pub cursor: Cursor,
}

#[derive(Clone, Copy)]
pub struct Stepped<'a> {
    pub walk: Walk<'a>,
    pub handed: Result<Option<Item>, Refused>,
}

pub fn start_walk<'a>(trace: &'a [u8]) -> Walk<'a>
    ensures { WalkStarts trace.entry result }
{
    Walk {
        trace,
        cursor: steps::start_at(trace),
    }
}

pub fn step_walk<'a>(walk: Walk<'a>) -> Stepped<'a>
    ensures { result ≡ stepped_of walk.entry }
{
    let step = steps::step_at(walk.trace, walk.cursor);
    Stepped {
        walk: Walk {
            cursor: step.cursor,
            ..walk
        },
        handed: step.handed,
    }
}

// For callers that keep a cursor and no walk: a walk's start, and one step of the walk at a cursor.
pub fn start_cursor(trace: &[u8]) -> Cursor
    ensures { StartMeets trace.now result }
{
    start_walk(trace).cursor
}

pub fn next_item(trace: &[u8], cursor: Cursor) -> Step
    ensures { result ≡ step_of trace.now cursor }
{
    let stepped = step_walk(Walk { trace, cursor });
    Step {
        cursor: stepped.walk.cursor,
        handed: stepped.handed,
    }
}
