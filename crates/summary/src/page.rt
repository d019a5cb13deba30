// The page of a trace and its index, or a refusal.
ghost use Rattle.std.specs.Prelude.{◌≡◌, ◌≤◌, length};
ghost use Rattle.std.proofs.Math.Seq.{paste};
ghost use Rattle.summary.specs.Page.{blank, PageMeets};

use crate::noting;
use crate::noting::Noted;
use grounds::Ground;
use trace::Refused;

// How the trace was judged, with the number of its items; its cycles, instruction starts and rate; and of each code how many items,
// the first cycle and the last (0 where it has none). All numbers are 0 where the trace was refused.
#[derive(Clone, Copy)]
pub struct Page {
    pub judged: Result<usize, Refused>,
    pub cycles: u32,
    pub starts: u32,
    pub rate: Option<f64>,
    pub counts: [u32; 16],
    pub firsts: [u32; 16],
    pub lasts: [u32; 16],
}

fn refuse(why: Ground, cycle: usize) -> Page
    ensures { result ≡ blank why cycle }
{
    Page {
        judged: Err(Refused { why, cycle }),
        cycles: 0,
        starts: 0,
        rate: None,
        counts: [0; 16],
        firsts: [0; 16],
        lasts: [0; 16],
    }
}

// The first entries, at the front of the index.
fn copy_entries(index: &mut [u32], entries: &[u32], n: usize)
    requires { (n ≤ length index.old) × (n ≤ length entries.now) }
    ensures { index.new ≡ paste index.old 0 entries.now n }
{
    index[..n].copy_from_slice(&entries[..n]);
}

// The page of a trace; its index then stands at the front of the buffer, one word an entry. The trace is read once, so what is noted
// is kept apart until nothing can be refused any more.
pub fn make_page(trace: &[u8], index: &mut [u32]) -> Page
    ensures { PageMeets trace.now index.old result index.new }
{
    let mut noted = Noted::new();
    let mut entries = [0; 256];
    let judged = noting::tally_trace(trace, &mut noted, &mut entries);
    match judged {
        Err(refused) => refuse(refused.why, refused.cycle),
        Ok(_) => {
            let needed = (trace.len() + 255) / 256;
            if index.len() < needed {
                return refuse(Ground::BufferTooShort, 0);
            }
            copy_entries(index, &entries, needed);
            let cycles = trace.len() as u32;
            let Noted {
                counts,
                firsts,
                lasts,
            } = noted;
            let starts = counts[1] + counts[4] + counts[5] + counts[7];
            Page {
                judged,
                cycles,
                starts,
                rate: rate::rate_of(cycles, starts),
                counts,
                firsts,
                lasts,
            }
        }
    }
}
