// A gateway's visit (docs/gateway.md): a marker's packets, and the replies that they must have.
ghost use Rattle.std.specs.Prelude.{◌≡◌};
ghost use Rattle.asked.specs.Marker.{mark_holds, mark_word};

// Enough for every port with W up to 15.
const REST_NOPS: u32 = 19;

// The number of its last packet, the first being 0.
pub const LAST: u32 = REST_NOPS + 4;

const ILLEGAL_WORD: u32 = 0xFFFF;

#[tactic(auto, unfolding(crate::specs::Marker::mark_word))]
pub fn word_of(i: u32) -> u32
    ensures { result ≡ mark_word i }
{
    if i == REST_NOPS + 2 { ILLEGAL_WORD } else { 0 }
}

#[tactic(auto, unfolding(crate::specs::Marker::mark_holds))]
pub fn is_due(i: u32, reply: u32) -> bool
    ensures { result ≡ mark_holds i reply }
{
    if i == REST_NOPS + 3 {
        reply == command::ILLEGAL
    } else {
        i <= REST_NOPS || reply == command::COMPLETE
    }
}
