// The listing of a trace into a lent buffer, whole or from one of its cycles on.
#![tactic(auto)]

ghost use Rattle.std.specs.Prelude.{◌≡◌, ◌+◌, ◌≤◌, ◌<◌, [], ◌∷◌, length};
ghost use Rattle.std.proofs.lemmas.List.Edits.{sets};
ghost use Rattle.cycle.specs.CycleItems.{value_item, own_item, items_at};
ghost use Rattle.trace.specs.Items.{items_to_end, words};
ghost use Rattle.listing.specs.Listing.{ListingMeets, ListingFromMeets};
ghost use Rattle.laws.specs.StoredMirror.{Stored};

use cycle::{Carried, Item};
use grounds::Ground;
use trace::Refused;

// An item's two words at a place of the buffer; the place after them.
fn put_item(out: &mut [u32], at: usize, item: Item) -> usize
    requires { (item.cycle < 65536) × (at + 2 ≤ length out.old) }
    ensures { Stored (words (item ∷ [])) at out.old result out.new }
{
    out[at] = item.cycle as u32 * 16 + u32::from(item.code);
    out[at + 1] = item.value;
    at + 2
}

fn put_value(trace: &[u8], out: &mut [u32], at: usize, i: usize, carried: Carried) -> usize
    requires { (i < 65536) × (at + length (words (value_item trace.now i carried)) ≤ length out.old) }
    ensures { Stored (words (value_item trace.now i carried)) at out.old result out.new }
{
    if carried.due == 1 {
        put_item(out, at, Item::of_value(trace, i, carried.marker))
    } else {
        at
    }
}

fn put_own(out: &mut [u32], at: usize, i: usize, run: u8, pst: u8) -> usize
    requires { (i < 65536) × (at + length (words (own_item i run pst)) ≤ length out.old) }
    ensures { Stored (words (own_item i run pst)) at out.old result out.new }
{
    if cycle::gives_own(run, pst) {
        put_item(out, at, Item::of_cycle(i, pst))
    } else {
        at
    }
}

// The items of one cycle.
fn put_cycle(trace: &[u8], out: &mut [u32], at: usize, i: usize, carried: Carried, pst: u8) -> usize
    requires { (i < 65536) × (at + length (words (items_at trace.now i carried pst)) ≤ length out.old) }
    ensures { Stored (words (items_at trace.now i carried pst)) at out.old result out.new }
{
    let next = put_value(trace, out, at, i, carried);
    put_own(out, next, i, carried.run, pst)
}

// The words of all items from a cycle on, from the front of the buffer on.
fn put_from(trace: &[u8], out: &mut [u32], from: usize, found: Carried)
    requires { (length trace.now ≤ 65536) × (length (words (items_to_end trace.now from found)) ≤ length out.old) }
    ensures { out.new ≡ sets out.old 0 (words (items_to_end trace.now from found)) }
{
    let mut carried = found;
    let mut at = 0;
    for i in from..trace.len() {
        let pst = trace[i] / 16;
        at = put_cycle(trace, out, at, i, carried, pst);
        carried = cycle::after_cycle(carried, pst);
    }
}

// A listing that starts at a cycle, with what that cycle finds under way: the items from there on.
// Where neither is the trace's, it is still safe, and judged and listed as if they were.
pub fn list_from(
    trace: &[u8],
    from: usize,
    found: Carried,
    out: &mut [u32],
) -> Result<usize, Refused>
    ensures { ListingFromMeets trace.now from found out.old result out.new }
{
    let judged = trace::judge_from(trace, from, found);
    match judged {
        Err(refused) => Err(refused),
        Ok(count) => {
            if out.len() / 2 < count {
                return Err(Refused {
                    why: Ground::BufferTooShort,
                    cycle: 0,
                });
            }
            put_from(trace, out, from, found);
            Ok(count)
        }
    }
}

// The listing: the number of items, whose words then stand at the front of the buffer, or a refusal.
pub fn list_trace(trace: &[u8], out: &mut [u32]) -> Result<usize, Refused>
    ensures { ListingMeets trace.now out.old result out.new }
{
    list_from(trace, 0, cycle::nothing_carried(), out)
}
