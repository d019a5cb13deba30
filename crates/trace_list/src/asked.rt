// What is asked of the lister: the whole trace, or from a cycle on.
ghost use Rattle.std.specs.Prelude.{◌≡◌};
ghost use Rattle.trace_list.specs.Asked.{decimal, from_of};

#[derive(Clone, Copy, Debug, PartialEq, Eq)]
pub enum Asked {
    Whole,
    From(u32),
    Unclear,
}

// The number that decimal digits make, where nothing else is among them and it has 32 bits.
fn read_decimal(word: &[u8]) -> Asked
    ensures { result ≡ decimal 0 word.now }
{
    let mut number = 0u64;
    for &byte in word {
        if byte < b'0' || b'9' < byte {
            return Asked::Unclear;
        }
        number = number * 10 + u64::from(byte - b'0');
        if 0xFFFFFFFF < number {
            return Asked::Unclear;
        }
    }
    Asked::From(number as u32)
}

// A multiple of 256, or unclear.
pub fn read_from(word: &[u8]) -> Asked
    ensures { result ≡ from_of word.now }
{
    if word.len() == 0 {
        return Asked::Unclear;
    }
    match read_decimal(word) {
        Asked::Whole => Asked::Unclear,
        Asked::Unclear => Asked::Unclear,
        Asked::From(cycle) => {
            if cycle % 256 == 0 {
                Asked::From(cycle)
            } else {
                Asked::Unclear
            }
        }
    }
}
