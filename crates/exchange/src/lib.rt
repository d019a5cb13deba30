// The exchange (01, "Packets" and the pod's half): a request, a board and lent memory in; its outcome and the packets sent out.
#![tactic(auto)]

ghost use Rattle.std.specs.Prelude.{◌≡◌, true};
ghost use Rattle.board.specs.State.{state_of};
ghost use Rattle.sound.specs.Sound.{Sound};
ghost use Rattle.requests.specs.Request.{in_range};
ghost use Rattle.round_trip.specs.RoundTrip.{state_there};
ghost use Rattle.round_trip.specs.BroughtToRest.{rest_scene};
ghost use Rattle.exchange.specs.Exchange.{ended_there, ExchangeMeets};
ghost use Rattle.exchange.specs.ExchangeMirror.{answer_of, PhaseTyped, Typed};

use board::{Board, Phase, Place};
use grounds::Ground;
use readings::{Outcome, Reader};
use requests::Request;

mod talk;

// The answer, with the board and the place as they are left.
#[derive(Clone, Copy)]
pub struct Returned {
    pub answer: Result<(Outcome, u32), Ground>,
    pub board: Board,
    pub place: Place,
}

fn answer_of(reader: Reader, packets: u32) -> Result<(Outcome, u32), Ground>
    ensures { result ≡ answer_of reader packets }
{
    match reader {
        Reader::First | Reader::Second(_) => Err(Ground::ImpossibleReply),
        Reader::Closed(outcome) => Ok((outcome, packets)),
        Reader::Bad(ground) => Err(ground),
    }
}

fn rest_and_converse(request: Request, board: Board, place: Place, memory: &mut [u8]) -> Returned
    requires { Sound (state_of board place memory.old) × (in_range request ≡ true) }
    ensures { (result.answer ≡ ended_there request (state_of board place memory.old))
        × (state_of result.board result.place memory.new ≡ state_there request (rest_scene (state_of board place memory.old))) }
{
    let rested = talk::bring_to_rest(board, place, memory);
    let talked = talk::converse(request, rested.board, rested.place, memory);
    Returned {
        answer: answer_of(talked.reader, rested.nops + talked.packets as u32),
        board: talked.board,
        place: talked.place,
    }
}

fn note_phase(phase: Phase)
    ensures { PhaseTyped phase }
{
    match phase {
        Phase::Rest => {}
        Phase::Due(_, _, _) => {}
        Phase::Waiting(_, _, _, _) => {}
        Phase::Upper(_) => {}
    }
}

// For the proof alone: what the types say of the numbers that are held.
fn note_types(board: Board, place: Place, memory: &[u8])
    ensures { Typed (state_of board place memory.now) }
{
    note_phase(place.phase);
}

// A place that is not at rest is brought to rest with NOPs, which are counted. Then the request's words go out one by one, and NOPs after them, until a reply
// closes the request. The reply to a word leaves with the next: so after an illegal command word one operand word has gone in before the pod knows, and the
// port has taken it as a command word, which no pod can help; the place may then be left in any phase.
pub fn exchange(request: Request, board: Board, place: Place, memory: &mut [u8]) -> Returned
    ensures { ExchangeMeets request (state_of board place memory.old) result memory.new }
{
    note_types(board, place, memory);
    match exchange_verdict::judge_exchange(request, board, place, memory) {
        Ok(()) => rest_and_converse(request, board, place, memory),
        Err(ground) => Returned {
            answer: Err(ground),
            board,
            place,
        },
    }
}
