// The index of a trace: what stands before a cycle, as an entry and as one word.
#![tactic(auto)]

ghost use Rattle.std.specs.Prelude.{◌≡◌};
ghost use Rattle.index.specs.Entry.{of_word, EntryMeets};

use cycle::Carried;
use trace::Refused;

// What stands before a cycle: how many items, and what is under way where the cycle begins.
#[derive(Clone, Copy, Debug, PartialEq, Eq)]
pub struct Entry {
    pub cycle: usize,
    pub items: usize,
    pub carried: Carried,
}

// The entry of a cycle, from its word.
pub fn read_entry(cycle: usize, word: u32) -> Entry
    ensures { result ≡ of_word cycle word }
{
    let carried = Carried {
        marker: (word / 256 % 16) as u8,
        due: (word / 16 % 16) as u8,
        run: (word % 16) as u8,
    };
    Entry {
        cycle,
        items: (word / 4096) as usize,
        carried,
    }
}

// The listing from an entry on: of the trace's own entry, the rest of the full one. How many items
// the entry says are before it is not read. An entry that is not the trace's is taken at its word:
// the cycles from its own on are judged and listed as if they found what it says.
pub fn list_from(trace: &[u8], entry: Entry, out: &mut [u32]) -> Result<usize, Refused>
    ensures { EntryMeets trace.now entry out.old result out.new }
{
    listing::list_from(trace, entry.cycle, entry.carried, out)
}
