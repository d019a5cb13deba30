// The two levels of TDR (01, "Events and firing").
ghost use Rattle.std.specs.Prelude.{◌≡◌, ◌<◌};
ghost use Rattle.board.specs.RegisterBits.{bit};
ghost use Rattle.trigger.specs.Levels.{level_of, level_one, level_two};

use comparators::Level;

fn is_set(bits: u32, k: u32) -> bool
    requires { k < 32 }
    ensures { result ≡ bit k bits }
{
    (bits >> k) % 2 == 1
}

#[tactic(auto, unfolding(crate::specs::Levels::level_of))]
fn level_of(bits: u32, t: bool) -> Level
    ensures { result ≡ level_of bits t }
{
    Level {
        t,
        ebl: is_set(bits, 13),
        edlw: is_set(bits, 12),
        edwl: is_set(bits, 11),
        edwu: is_set(bits, 10),
        edll: is_set(bits, 9),
        edlm: is_set(bits, 8),
        edum: is_set(bits, 7),
        eduu: is_set(bits, 6),
        di: is_set(bits, 5),
        eai: is_set(bits, 4),
        ear: is_set(bits, 3),
        eal: is_set(bits, 2),
        epc: is_set(bits, 1),
        pci: is_set(bits, 0),
    }
}

pub fn level_one(tdr: u32) -> Level
    ensures { result ≡ level_one tdr }
{
    level_of(tdr, is_set(tdr, 14))
}

pub fn level_two(tdr: u32) -> Level
    ensures { result ≡ level_two tdr }
{
    level_of(tdr / 65536, is_set(tdr, 15))
}
