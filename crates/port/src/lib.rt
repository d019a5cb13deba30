// One packet: judged, answered and taken (01, "Packets").
#![tactic(auto)]

ghost use Rattle.std.specs.Prelude.{◌≡◌};
ghost use Rattle.board.specs.State.{state_of};
ghost use Rattle.port.specs.Packet.{packet_verdict, PacketMeets};

use board::{Board, Place};
use grounds::Ground;

#[derive(Clone, Copy, Debug, PartialEq, Eq)]
pub struct Answer {
    pub outcome: Result<u32, Ground>,
    pub board: Board,
    pub place: Place,
}

#[tactic(auto, unfolding(crate::specs::Packet::packet_verdict))]
fn judge_packet(board: Board, place: Place, memory: &[u8], word: u32) -> Result<(), Ground>
    ensures { result ≡ packet_verdict (state_of board place memory.now) word }
{
    if !ranges::is_in_range(board, place) {
        return Err(Ground::StateOutOfRange);
    }
    if 65536 < memory.len() {
        return Err(Ground::MemoryTooLong);
    }
    if 0x1FFFF < word {
        return Err(Ground::WordTooLarge);
    }
    Ok(())
}

pub fn take_packet(board: Board, place: Place, memory: &mut [u8], word: u32) -> Answer
    ensures { PacketMeets (state_of board place memory.old) word result memory.new }
{
    match judge_packet(board, place, memory, word) {
        Ok(()) => {
            let reply = step::reply_of(place);
            let next = step::take_word(board, place, memory, word);
            Answer {
                outcome: Ok(reply),
                board: next.board,
                place: next.place,
            }
        }
        Err(ground) => Answer {
            outcome: Err(ground),
            board,
            place,
        },
    }
}
