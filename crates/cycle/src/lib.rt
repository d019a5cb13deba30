// One recorded cycle: what the cycles before it have left under way, what it gives, and what it leaves.
#![tactic(auto)]

ghost use Rattle.std.specs.Prelude.{◌≡◌, ℕ, ◌+◌, ◌-◌, List, length};
ghost use Rattle.cycle.specs.Cycle.{nothing, reserved, single, marker, nibbles, ddata, value_ending, gives_own, too_soon, after};
ghost use Rattle.cycle.specs.CycleItems.{of_value, of_cycle, items_at};

// What is under way where a cycle begins: the latest marker, how many of its nibbles are still due
// (this cycle's among them), and the code of the run that the cycle stands in (0: none).
#[derive(Clone, Copy, Debug, PartialEq, Eq)]
pub struct Carried {
    pub marker: u8,
    pub due: u8,
    pub run: u8,
}

// An item of the listing. The value is 0 where the code is no marker's.
#[derive(Clone, Copy, Debug, PartialEq, Eq)]
pub struct Item {
    pub cycle: usize,
    pub code: u8,
    pub value: u32,
}

impl Item {
    // The item of a value whose last nibble a cycle carries.
    pub fn of_value(trace: &[u8], cycle: usize, marker: u8) -> Item
        ensures { result ≡ of_value trace.now cycle marker }
    {
        Item {
            cycle,
            code: marker,
            value: read_value(trace, cycle, marker),
        }
    }

    // A cycle's own item.
    pub fn of_cycle(cycle: usize, pst: u8) -> Item
        ensures { result ≡ of_cycle cycle pst }
    {
        Item {
            cycle,
            code: pst,
            value: 0,
        }
    }
}

// What is under way where a trace begins.
pub fn nothing_carried() -> Carried
    ensures { result ≡ nothing }
{
    Carried {
        marker: 0,
        due: 0,
        run: 0,
    }
}

pub fn is_reserved(pst: u8) -> bool
    ensures { result ≡ reserved pst }
{
    matches!(pst, 2 | 6)
}

pub fn is_marker(pst: u8) -> bool
    ensures { result ≡ marker pst }
{
    matches!(pst, 8..=11)
}

// A bit for each PST below 8, and no jump.
fn is_single(pst: u8) -> bool
    ensures { result ≡ single pst }
{
    pst < 8 && (0xBAu8 >> pst) & 1 == 1
}

// Whether a cycle gives an item of its own, beside a value's. PST below 8 is asked for first, as in what else is asked of a cycle.
pub fn gives_own(run: u8, pst: u8) -> bool
    ensures { result ≡ gives_own run pst }
{
    if pst < 8 {
        is_single(pst)
    } else if pst < 12 {
        false
    } else {
        pst != run
    }
}

// Whether a cycle is a marker before the last nibble of the transfer under way.
pub fn comes_too_soon(due: u8, pst: u8) -> bool
    ensures { result ≡ too_soon due pst }
{
    2 <= due && is_marker(pst)
}

// How many items a cycle gives.
pub fn count_items(carried: Carried, pst: u8) -> usize
    ensures { (trace : List ℕ) (i : ℕ) → result ≡ length (items_at trace i carried pst) }
{
    usize::from(carried.due == 1) + usize::from(gives_own(carried.run, pst))
}

pub fn count_nibbles(marker: u8) -> u8
    ensures { result ≡ nibbles marker }
{
    2 * (marker % 4 + 1)
}

// What is under way after a cycle. What is due is worked out in the arm: one sum before the arms makes each cycle wait longer for the one before it.
pub fn after_cycle(carried: Carried, pst: u8) -> Carried
    ensures { result ≡ after carried pst }
{
    match pst {
        0..=7 => Carried {
            due: carried.due.saturating_sub(1),
            run: 0,
            ..carried
        },
        8..=11 => Carried {
            marker: pst,
            due: count_nibbles(pst),
            ..carried
        },
        _ => Carried {
            due: carried.due.saturating_sub(1),
            run: pst,
            ..carried
        },
    }
}

fn ddata_at(trace: &[u8], i: usize) -> u8
    ensures { result ≡ ddata trace.now i }
{
    trace.get(i).map_or(0, |byte| byte % 16)
}

// The cycle of a value's first nibble. Chosen once: saturating_sub would be worked out for each nibble.
fn first_nibble(last: usize, marker: u8) -> usize
    ensures { result ≡ last + 1 - nibbles marker }
{
    let n = usize::from(count_nibbles(marker));
    if last < n { 0 } else { last - n + 1 }
}

// The value of a marker, read back from its nibbles once the last has come.
pub fn read_value(trace: &[u8], last: usize, marker: u8) -> u32
    ensures { result ≡ value_ending trace.now last marker }
{
    let from = first_nibble(last, marker);
    let n = usize::from(count_nibbles(marker));
    let mut v = 0;
    for k in (0..n).rev() {
        v = v * 16 + u32::from(ddata_at(trace, from + k));
    }
    v
}
