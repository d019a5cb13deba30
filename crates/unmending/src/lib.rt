// The way back from a mended trace and its list to the trace as it was recorded.
#![tactic(auto)]

ghost use Rattle.std.specs.Prelude.{◌≡◌, ◌&&◌, ◌≤◌, length};
ghost use Rattle.same.specs.SameList.{same};
ghost use Rattle.mending.specs.Mending.{mended, changes};
ghost use Rattle.unmending.specs.Unmending.{put_word, put_back, UnmendingMeets};

fn put_word(trace: &mut [u8], word: u32)
    ensures { trace.new ≡ put_word trace.old word }
{
    let cycle = (word / 16) as usize;
    if cycle < trace.len() {
        trace[cycle] = (word % 16) as u8 * 16 + trace[cycle] % 16;
    }
}

// The listed PSTs put back, whatever stands there. A word whose cycle the trace has not is passed over.
pub fn put_back(trace: &mut [u8], list: &[u32])
    ensures { trace.new ≡ put_back trace.old list.now }
{
    for &word in list {
        put_word(trace, word);
    }
}

// Whether a recorded trace, mended, gives this trace and this list.
fn gives_both(recorded: &[u8], trace: &[u8], list: &[u32]) -> bool
    requires { length recorded.now ≤ 65536 }
    ensures { result ≡ (same (mended recorded.now) trace.now && same (changes recorded.now) list.now) }
{
    let mut again = [0u8; 65536];
    let mut words = [0u32; 65536];
    let n = recorded.len();
    match mending::mend_trace(recorded, &mut again, &mut words) {
        Err(_) => false,
        Ok(changed) => same::is_same(&again[..n], trace) && same::is_same(&words[..changed], list),
    }
}

// The trace as it was recorded, in its place, where the list is the mended trace's; else the trace stays.
pub fn unmend_trace(trace: &mut [u8], list: &[u32]) -> bool
    ensures { UnmendingMeets trace.old list.now result trace.new }
{
    let n = trace.len();
    if 65536 < n {
        return false;
    }
    let mut back = [0u8; 65536];
    text::put_text(&mut back, 0, trace);
    put_back(&mut back[..n], list);
    if gives_both(&back[..n], trace, list) {
        put_back(trace, list);
        return true;
    }
    false
}
