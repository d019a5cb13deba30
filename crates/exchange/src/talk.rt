// The words of an exchange (01, "Packets"): NOPs to rest, and a request's words sent one by one, the replies read.
ghost use Rattle.std.specs.Prelude.{◌≡◌, true, ℕ, ◌≤◌, get_or};
ghost use Rattle.board.specs.Board.{at_rest};
ghost use Rattle.board.specs.State.{state_of};
ghost use Rattle.step.specs.Step.{reply_now, stepped};
ghost use Rattle.sound.specs.Sound.{Sound};
ghost use Rattle.requests.specs.Request.{in_range};
ghost use Rattle.building.specs.RequestWords.{built_words};
ghost use Rattle.readings.specs.Reader.{done};
ghost use Rattle.round_trip.specs.BroughtToRest.{rested, rest_nops, rest_budget};
ghost use Rattle.round_trip.specs.TalkMirror.{talk, exchanged, from_command};

use board::{Board, Phase, Place};
use readings::Reader;
use requests::Request;

// A packet sent: its reply, and what it leaves.
#[derive(Clone, Copy)]
struct Sent {
    reply: u32,
    board: Board,
    place: Place,
}

// Brought to rest with so many NOPs.
#[derive(Clone, Copy)]
pub struct Rested {
    pub nops: u32,
    pub board: Board,
    pub place: Place,
}

// Sent and read to the end, in so many packets.
#[derive(Clone, Copy)]
pub struct Talked {
    pub reader: Reader,
    pub packets: usize,
    pub board: Board,
    pub place: Place,
}

fn send(board: Board, place: Place, memory: &mut [u8], word: u32) -> Sent
    requires { Sound (state_of board place memory.old) × (word ≤ 0xFFFF) }
    ensures { (result.reply ≡ reply_now place)
        × (state_of result.board result.place memory.new ≡ stepped (state_of board place memory.old) word) }
{
    let answer = port::take_packet(board, place, memory, word);
    // No packet of an exchange is refused.
    let Ok(reply) = answer.outcome else {
        unreachable!();
    };
    Sent {
        reply,
        board: answer.board,
        place: answer.place,
    }
}

fn is_resting(place: Place) -> bool
    ensures { result ≡ at_rest place.phase }
{
    matches!(place.phase, Phase::Rest)
}

pub fn bring_to_rest(mut board: Board, mut place: Place, memory: &mut [u8]) -> Rested
    requires { Sound (state_of board place memory.old) }
    ensures { (state_of result.board result.place memory.new ≡ rested rest_budget (state_of board place memory.old))
        × (result.nops ≡ rest_nops rest_budget (state_of board place memory.old)) }
{
    let mut nops = 0;
    while !is_resting(place) {
        let sent = send(board, place, memory, 0);
        board = sent.board;
        place = sent.place;
        nops += 1;
    }
    Rested { nops, board, place }
}

fn word_at(words: &[u32], i: usize) -> u32
    ensures { result ≡ get_or words.now i 0 }
{
    words.get(i).copied().unwrap_or(0)
}

// From the reply to the packet after the command word on.
fn read_on(
    request: Request,
    words: &[u32],
    mut board: Board,
    mut place: Place,
    memory: &mut [u8],
) -> Talked
    requires { Sound (state_of board place memory.old) × (in_range request ≡ true)
        × (done (from_command request (state_of board place memory.old)).reader ≡ true)
        × ((i : ℕ) → get_or words.now i 0 ≡ get_or (built_words request) i 0) }
    ensures { talk result.reader (state_of result.board result.place memory.new) result.packets
        ≡ from_command request (state_of board place memory.old) }
{
    let mut reader = Reader::First;
    let mut packets = 1;
    while !readings::is_done(reader) {
        let word = word_at(words, packets);
        let sent = send(board, place, memory, word);
        reader = readings::take_reply(requests::kind_of(request), reader, sent.reply);
        board = sent.board;
        place = sent.place;
        packets += 1;
    }
    Talked {
        reader,
        packets,
        board,
        place,
    }
}

pub fn converse(request: Request, board: Board, place: Place, memory: &mut [u8]) -> Talked
    requires { Sound (state_of board place memory.old) × (in_range request ≡ true) × (at_rest place.phase ≡ true) }
    ensures { talk result.reader (state_of result.board result.place memory.new) result.packets
        ≡ exchanged request (state_of board place memory.old) }
{
    let mut words = [0u32; 5];
    let _ = building::build(request, &mut words);
    // The command word's reply belongs to what came before, and is not read.
    let sent = send(board, place, memory, words[0]);
    read_on(request, &words, sent.board, sent.place, memory)
}
