// For programs in other languages: a run of packets on a fresh board, the listing of a trace, its page, and a trace mended.
// `rt lib` writes the archive, out/libyarkovesh.a.
#![tactic(auto)]

ghost use Rattle.std.specs.Prelude.{◌≡◌};
ghost use Rattle.yarkovesh.specs.Exported.{verdict_number, listing_number, FreshRunMeets, ListMeets};
ghost use Rattle.yarkovesh.specs.ExportedPage.{rows, PageNumbersMeet};
ghost use Rattle.yarkovesh.specs.ExportedMend.{MendNumberMeets, UnmendNumberMeets};
ghost use Rattle.trace.specs.TraceReading.{told_listing as told};
ghost use Rattle.mending.specs.MendingAnswer.{told_mending};

use grounds::Ground;
use summary::page;
use trace::Refused;

fn number_of(verdict: Result<(), Ground>) -> u32
    ensures { result ≡ verdict_number verdict }
{
    match verdict {
        Ok(()) => 0,
        Err(why) => grounds::number_of(why),
    }
}

fn listing_number(listed: Result<usize, Refused>) -> u64
    ensures { result ≡ listing_number (told listed) }
{
    match listed {
        Ok(items) => items as u64,
        Err(refused) => {
            (grounds::number_of(refused.why) as u64) * 0x100000000
                + (refused.cycle as u64) % 0x100000000
        }
    }
}

// A run of packets on a fresh board of wait setting w: 0, or the number of the ground on which it is refused.
#[unsafe(no_mangle)]
pub extern "C" fn yarkovesh_run(
    w: u32,
    memory: &mut [u8],
    words: &[u32],
    replies: &mut [u32],
) -> u32
    ensures { FreshRunMeets w memory.old words.now replies.old result memory.new replies.new }
{
    let made = board::make(w);
    let verdict = made.verdict;
    let board = made.board;
    let place = made.place;
    match verdict {
        Ok(()) => {
            let ran = run::take_packets(board, place, memory, words, replies);
            let run_verdict = ran.verdict;
            number_of(run_verdict)
        }
        Err(why) => grounds::number_of(why),
    }
}

// The listing of a trace, two words an item: how many items, or the ground's number times 2^32 and the cycle.
#[unsafe(no_mangle)]
pub extern "C" fn yarkovesh_list(trace: &[u8], words: &mut [u32]) -> u64
    ensures { ListMeets trace.now words.old result words.new }
{
    let listed = listing::list_trace(trace, words);
    listing_number(listed)
}

// The page of a trace: as the listing answers, how many items or the refusal. Of each of the sixteen codes how many items, the first
// cycle and the last; the instruction starts; and the bits of the rate, 0 where nothing started.
#[unsafe(no_mangle)]
pub extern "C" fn yarkovesh_page(
    trace: &[u8],
    counts: &mut [u32; 16],
    firsts: &mut [u32; 16],
    lasts: &mut [u32; 16],
    starts: &mut u32,
    rate: &mut u64,
    index: &mut [u32],
) -> u64
    ensures { PageNumbersMeet trace.now index.old result index.new
        (rows counts.old firsts.old lasts.old starts.old rate.old)
        (rows counts.new firsts.new lasts.new starts.new rate.new) }
{
    let page = page::make_page(trace, index);
    let judged = page.judged;
    match judged {
        Err(_) => listing_number(judged),
        Ok(_) => {
            let page_counts = page.counts;
            let page_firsts = page.firsts;
            let page_lasts = page.lasts;
            let page_rate = page.rate;
            *counts = page_counts;
            *firsts = page_firsts;
            *lasts = page_lasts;
            *starts = page.starts;
            *rate = rate::bits_of(page_rate);
            listing_number(judged)
        }
    }
}

fn mending_number(mended: Result<usize, Ground>) -> u64
    ensures { result ≡ listing_number (told_mending mended) }
{
    match mended {
        Ok(changed) => changed as u64,
        Err(why) => (grounds::number_of(why) as u64) * 0x100000000,
    }
}

// A trace mended, and a word for each changed cycle: how many there are, or the ground's number times 2^32.
#[unsafe(no_mangle)]
pub extern "C" fn yarkovesh_mend(trace: &[u8], bytes: &mut [u8], words: &mut [u32]) -> u64
    ensures { MendNumberMeets trace.now bytes.old words.old result bytes.new words.new }
{
    let mended = mending::mend_trace(trace, bytes, words);
    mending_number(mended)
}

// The way back: 1, and the trace is as it was recorded; 0 where the words are not this trace's list, and the trace stays.
#[unsafe(no_mangle)]
pub extern "C" fn yarkovesh_unmend(trace: &mut [u8], words: &[u32]) -> u32
    ensures { UnmendNumberMeets trace.old words.now result trace.new }
{
    if unmending::unmend_trace(trace, words) {
        return 1;
    }
    0
}
