// A run of packets over a lent list into a lent list of replies (01, "Packets").
#![tactic(auto)]

ghost use Rattle.std.specs.Prelude.{◌≡◌, ◌≤◌, true, length};
ghost use Rattle.board.specs.State.{state_of};
ghost use Rattle.run.specs.Run.{ran, all_within, run_verdict, RunMeets};
ghost use Rattle.run.specs.RunMirror.{written, idled, has_short_way, short_way};

use board::{Board, Phase, Place};
use grounds::Ground;
use plan::Plan;
use step::Next;

#[derive(Clone, Copy, Debug, PartialEq, Eq)]
pub struct Ran {
    pub verdict: Result<(), Ground>,
    pub board: Board,
    pub place: Place,
}

// To the end in any case: a loop with one way out compiles to steps of several words.
fn all_within(words: &[u32]) -> bool
    ensures { result ≡ all_within words.now }
{
    let mut within = true;
    for &word in words {
        within &= word <= 0x1FFFF;
    }
    within
}

#[tactic(auto, unfolding(crate::specs::Run::run_verdict))]
fn judge_run(
    board: Board,
    place: Place,
    memory: &[u8],
    words: &[u32],
    room: usize,
) -> Result<(), Ground>
    ensures { result ≡ run_verdict (state_of board place memory.now) words.now room }
{
    if !ranges::is_in_range(board, place) {
        return Err(Ground::StateOutOfRange);
    }
    if 65536 < memory.len() {
        return Err(Ground::MemoryTooLong);
    }
    if !all_within(words) {
        return Err(Ground::WordTooLarge);
    }
    if room < words.len() {
        return Err(Ground::BufferTooShort);
    }
    Ok(())
}

// A packet that the place alone decides: a NOP at rest, an operand word but the last, and that which brings the low result word.
fn has_short_way(place: Place, word: u32) -> bool
    ensures { result ≡ has_short_way place.phase word }
{
    match place.phase {
        Phase::Rest => word == 0,
        Phase::Due(_, left, _) => 2 <= left && word <= 0xFFFF,
        Phase::Waiting(_, _, _, _) => false,
        Phase::Upper(_) => true,
    }
}

fn stay_idle(place: Place) -> Place
    ensures { result ≡ idled place }
{
    board::set_place(
        place,
        Phase::Rest,
        place.chain,
        place.pointer,
        command::COMPLETE,
    )
}

fn take_short_way(place: Place, word: u32) -> Place
    requires { has_short_way place.phase word ≡ true }
    ensures { result ≡ short_way place.phase place word }
{
    match place.phase {
        Phase::Rest => stay_idle(place),
        Phase::Due(command, left, taken) => {
            let all = plan::take_operand(taken, word as u16);
            step::hold(place, Phase::Due(command, left - 1, all))
        }
        Phase::Waiting(_, _, _, _) => place,
        Phase::Upper(low) => step::release(place, low),
    }
}

fn take_words(
    board: Board,
    place: Place,
    memory: &mut [u8],
    words: &[u32],
    replies: &mut [u32],
) -> Next
    requires { length words.now ≤ length replies.old }
    ensures { (state_of result.board result.place memory.new ≡ ran words.now (state_of board place memory.old))
        × (replies.new ≡ written words.now 0 (state_of board place memory.old) replies.old) }
{
    let mut b = board;
    let mut p = place;
    // By the phase at first; after any packet it is the one held.
    let mut reply = step::reply_of(place);
    for (i, &word) in words.iter().enumerate() {
        replies[i] = reply;
        if has_short_way(p, word) {
            p = take_short_way(p, word);
            reply = p.next;
            continue;
        }
        let held = b.fault;
        let fault = faults::after_word(p.phase, word, held);
        let plan = step::plan_for(b, p, word);
        let Plan::Work(_, _, _) = plan else {
            // Where none is held none is cleared: the board is large, and not copied.
            match held {
                None => {}
                Some(_) => {
                    b = board::set_fault(b, fault);
                }
            }
            p = step::settle_without_work(p, plan);
            reply = p.next;
            continue;
        };
        let next = step::carry_out(b, fault, p, memory, plan);
        b = next.board;
        p = next.place;
        reply = p.next;
    }
    Next { board: b, place: p }
}

pub fn take_packets(
    board: Board,
    place: Place,
    memory: &mut [u8],
    words: &[u32],
    replies: &mut [u32],
) -> Ran
    ensures { RunMeets (state_of board place memory.old) words.now replies.old result
        memory.new replies.new }
{
    let verdict = judge_run(board, place, memory, words, replies.len());
    match verdict {
        Ok(()) => {
            let next = take_words(board, place, memory, words, replies);
            Ran {
                verdict,
                board: next.board,
                place: next.place,
            }
        }
        Err(_) => Ran {
            verdict,
            board,
            place,
        },
    }
}
