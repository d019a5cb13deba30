// A trace with dropouts, mended into a lent buffer, with the list of what was changed.
#![tactic(auto)]

ghost use Rattle.std.specs.Prelude.{◌≡◌, cond, ◌+◌, ◌-◌, ◌≤◌, ◌<◌, eqb, length};
ghost use Rattle.std.proofs.lemmas.List.Edits.{sets};
ghost use Rattle.cycle.specs.Cycle.{marker};
ghost use Rattle.laws.specs.StoredMirror.{Stored};
ghost use Rattle.mending.specs.Mending.{cut_short, mended, change_word, changes};
ghost use Rattle.mending.specs.MendingAnswer.{MendingMeets};
ghost use Rattle.mending.specs.MendingMirror.{kept_after, wipes, Surveyed};

use grounds::Ground;

// The PST that is kept of a cycle, and what is due after it.
#[derive(Clone, Copy, Debug, PartialEq, Eq)]
pub struct Kept {
    pub pst: u8,
    pub due: u8,
}

// What mending will change: how many cycles, and the one whose marker announces more than there is, if there is one.
#[derive(Clone, Copy, Debug, PartialEq, Eq)]
pub struct Survey {
    pub changed: usize,
    pub cut: Option<usize>,
}

// A cycle by the first two rules where so many nibbles are due. One arm for each kind of PST: what is kept of it decides what is due next.
// That is worked out in the arm: one sum before the arms makes each cycle wait longer for the one before it.
fn judge_cycle(due: u8, pst: u8) -> Kept
    ensures { result ≡ kept_after due pst }
{
    match pst {
        0..8 if cycle::is_reserved(pst) => Kept {
            pst: 0,
            due: due.saturating_sub(1),
        },
        0..8 => Kept {
            pst,
            due: due.saturating_sub(1),
        },
        8..12 if 2 <= due => Kept {
            pst: 0,
            due: due.saturating_sub(1),
        },
        8..12 => Kept {
            pst,
            due: cycle::count_nibbles(pst),
        },
        _ => Kept {
            pst,
            due: due.saturating_sub(1),
        },
    }
}

// One where a PST was changed.
fn count_wiped(old: u8, left: u8) -> usize
    ensures { result ≡ wipes old left }
{
    usize::from(left != old)
}

fn latest_of(latest: usize, i: usize, pst: u8) -> usize
    ensures { result ≡ cond (marker pst) i latest }
{
    if cycle::is_marker(pst) { i } else { latest }
}

// The third rule, at the cycle that it is for.
fn leave_pst(kept: u8, i: usize, cut: usize) -> u8
    ensures { result ≡ cond (eqb i cut) 0 kept }
{
    if i == cut { 0 } else { kept }
}

fn survey_trace(trace: &[u8]) -> Survey
    ensures { Surveyed trace.now result }
{
    let mut due = 0u8;
    let mut changed = 0usize;
    let mut latest = 0usize;
    for (i, &byte) in trace.iter().enumerate() {
        let pst = byte / 16;
        let kept = judge_cycle(due, pst);
        changed += count_wiped(pst, kept.pst);
        latest = latest_of(latest, i, kept.pst);
        due = kept.due;
    }
    if due == 0 {
        return Survey { changed, cut: None };
    }
    Survey {
        changed: changed + 1,
        cut: Some(latest),
    }
}

// The word of a changed cycle, at a place of the list; the place after it.
fn put_change(list: &mut [u32], at: usize, i: usize, old: u8, left: u8) -> usize
    requires { (i < 65536) × (at + length (change_word i old left) ≤ length list.old) }
    ensures { Stored (change_word i old left) at list.old result list.new }
{
    if left == old {
        return at;
    }
    list[at] = (i * 16 + old as usize) as u32;
    at + 1
}

// The mended trace and the list, each from the front of its buffer on.
fn put_mended(trace: &[u8], bytes: &mut [u8], list: &mut [u32], cut: usize)
    requires trace_fits { (length trace.now ≤ 65536) × (length trace.now ≤ length bytes.old) }
    requires changes_fit { (length (changes trace.now) ≤ length list.old) × (cut ≡ cut_short trace.now) }
    ensures mends { bytes.new ≡ sets bytes.old 0 (mended trace.now) }
    ensures lists { list.new ≡ sets list.old 0 (changes trace.now) }
{
    let mut due = 0u8;
    let mut at = 0usize;
    for (i, &byte) in trace.iter().enumerate() {
        let pst = byte / 16;
        let stays = judge_cycle(due, pst);
        let left = leave_pst(stays.pst, i, cut);
        bytes[i] = left * 16 + byte % 16;
        at = put_change(list, at, i, pst, left);
        due = stays.due;
    }
}

// The trace mended, at the front of the one buffer, and a word for each changed cycle at the front of the other.
pub fn mend_trace(trace: &[u8], bytes: &mut [u8], list: &mut [u32]) -> Result<usize, Ground>
    ensures { MendingMeets trace.now bytes.old list.old result bytes.new list.new }
{
    if 65536 < trace.len() {
        return Err(Ground::TraceTooLong);
    }
    if bytes.len() < trace.len() {
        return Err(Ground::BufferTooShort);
    }
    let found = survey_trace(trace);
    if list.len() < found.changed {
        return Err(Ground::BufferTooShort);
    }
    put_mended(trace, bytes, list, found.cut.unwrap_or(trace.len()));
    Ok(found.changed)
}
