// The items of a trace counted, and the judgement of a trace, whole or from one of its cycles on.
#![tactic(auto)]

ghost use Rattle.std.specs.Prelude.{◌≡◌};
ghost use Rattle.trace.specs.TraceReading.{told_listing, cycle_judged, reading, reading_from};

use cycle::Carried;
use grounds::Ground;

// Why a trace is refused, and at which cycle (0 where the ground has none).
#[derive(Clone, Copy)]
pub struct Refused {
    pub why: Ground,
    pub cycle: usize,
}

// Whether a cycle may stand where so many nibbles are due.
#[tactic(auto, unfolding(crate::specs::TraceReading::cycle_judged))]
pub fn judge_cycle(due: u8, pst: u8) -> Result<(), Ground>
    ensures { result ≡ cycle_judged due pst }
{
    if cycle::is_reserved(pst) {
        Err(Ground::ReservedPst)
    } else if cycle::comes_too_soon(due, pst) {
        Err(Ground::MarkerTooSoon)
    } else {
        Ok(())
    }
}

// Whether a trace can be read from a cycle on, which finds so much under way: the number of its items
// from there on, or the refusal, a buffer aside. No earlier cycle is judged.
pub fn judge_from(trace: &[u8], from: usize, found: Carried) -> Result<usize, Refused>
    ensures { told_listing result ≡ reading_from trace.now from found }
{
    if 65536 < trace.len() {
        return Err(Refused {
            why: Ground::TraceTooLong,
            cycle: 0,
        });
    }
    let mut carried = found;
    let mut items = 0;
    for i in from..trace.len() {
        let pst = trace[i] / 16;
        if let Err(why) = judge_cycle(carried.due, pst) {
            return Err(Refused { why, cycle: i });
        }
        items += cycle::count_items(carried, pst);
        carried = cycle::after_cycle(carried, pst);
    }
    if carried.due == 0 {
        Ok(items)
    } else {
        Err(Refused {
            why: Ground::TraceCutShort,
            cycle: 0,
        })
    }
}

// Whether a trace can be read as a whole.
pub fn judge_trace(trace: &[u8]) -> Result<usize, Refused>
    ensures { told_listing result ≡ reading trace.now }
{
    judge_from(trace, 0, cycle::nothing_carried())
}
