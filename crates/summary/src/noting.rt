// The tally of a trace: for each of the sixteen codes how many items, the first cycle and the last; and the words of its index.
ghost use Rattle.std.specs.Prelude.{◌≡◌, ◌+◌, ◌*◌, ◌/◌, ◌%◌, ◌≤◌, ◌<◌, cond, eqb, get_or, set, []};
ghost use Rattle.cycle.specs.CycleItems.{own_item};
ghost use Rattle.trace.specs.TraceReading.{told_listing, reading};
ghost use Rattle.index.specs.Entry.{entry_word};
ghost use Rattle.summary.specs.TallyMirror.{Notes, NotesValue, ReadTallied, Tallied, with_item};

use cycle::Carried;
use grounds::Ground;
use trace::Refused;

fn first_cycle(count: u32, first: u32, cycle: u32) -> u32
    ensures { result ≡ cond (eqb count 0) cycle first }
{
    if count == 0 { cycle } else { first }
}

// What is noted of the items of each of the sixteen codes: how many, the first cycle and the last.
#[derive(Clone, Copy, Debug, PartialEq, Eq)]
pub struct Noted {
    pub counts: [u32; 16],
    pub firsts: [u32; 16],
    pub lasts: [u32; 16],
}

impl Noted {
    // No item yet.
    pub fn new() -> Noted
        ensures { Tallied [] result }
    {
        Noted {
            counts: [0; 16],
            firsts: [0; 16],
            lasts: [0; 16],
        }
    }

    // One item more of a code.
    fn note(&mut self, code: u8, cycle: u32)
        requires { (code < 16) × (get_or self.old.counts code 0 < 4294967295) }
        ensures { self.new ≡ with_item self.old code cycle }
    {
        let code = usize::from(code);
        self.firsts[code] = first_cycle(self.counts[code], self.firsts[code], cycle);
        self.lasts[code] = cycle;
        self.counts[code] += 1;
    }

    // The item of a value whose last nibble a cycle carries.
    fn note_value(&mut self, i: usize, carried: Carried)
        requires { (i < 65536) × (carried.marker < 16) × (get_or self.old.counts carried.marker 0 < 4294967295) }
        ensures { NotesValue i carried self.old self.new }
    {
        if carried.due == 1 {
            self.note(carried.marker, i as u32);
        }
    }

    // A cycle's own item.
    fn note_own(&mut self, i: usize, run: u8, pst: u8)
        requires { (i < 65536) × (pst < 16) × (get_or self.old.counts pst 0 < 4294967295) }
        ensures { Notes (own_item i run pst) self.old self.new }
    {
        if cycle::gives_own(run, pst) {
            self.note(pst, i as u32);
        }
    }
}

// The entry of every 256th cycle, one word each.
fn put_entry(entries: &mut [u32; 256], i: usize, items: usize, carried: Carried)
    requires { (i < 65536) × (items ≤ 131072) }
    ensures { entries.new ≡ cond (eqb (i % 256) 0)
        (set entries.old (i / 256) (entry_word (record { cycle = i; items = items; carried = carried }))) entries.old }
{
    if i % 256 == 0 {
        entries[i / 256] = items as u32 * 4096
            + u32::from(carried.marker) * 256
            + u32::from(carried.due) * 16
            + u32::from(carried.run);
    }
}

// A trace judged as the reader judges it, and in the same pass all its items noted and its index put from the front of the entries on.
// Of a trace that is refused nothing else is said.
pub fn tally_trace(
    trace: &[u8],
    noted: &mut Noted,
    entries: &mut [u32; 256],
) -> Result<usize, Refused>
    requires { Tallied [] noted.old }
    ensures { (told_listing result ≡ reading trace.now)
        × ReadTallied trace.now entries.old result noted.new entries.new }
{
    if 65536 < trace.len() {
        return Err(Refused {
            why: Ground::TraceTooLong,
            cycle: 0,
        });
    }
    let mut carried = cycle::nothing_carried();
    let mut items = 0;
    for (i, &byte) in trace.iter().enumerate() {
        let pst = byte / 16;
        if let Err(why) = trace::judge_cycle(carried.due, pst) {
            return Err(Refused { why, cycle: i });
        }
        put_entry(entries, i, items, carried);
        noted.note_value(i, carried);
        noted.note_own(i, carried.run, pst);
        items += cycle::count_items(carried, pst);
        carried = cycle::after_cycle(carried, pst);
    }
    if carried.due == 0 {
        Ok(items)
    } else {
        Err(Refused {
            why: Ground::TraceCutShort,
            cycle: 0,
        })
    }
}
