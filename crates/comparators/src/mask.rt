// The masked comparison (01, "Events and firing").
ghost use Rattle.std.specs.Prelude.{◌≡◌};
ghost use Rattle.comparators.specs.Masks.{agree, turned};

// Whether a and b have the same bits where the mask is 0: lane by lane, under the names of Table 5-14 (docs/lanes.md).
#[tactic(auto, using(crate::specs::MaskLaws::same_by_lanes), unfolding(crate::specs::Masks::agree))]
pub fn agrees(mask: u32, a: u32, b: u32) -> bool
    ensures { result ≡ agree mask a b }
{
    let left = a | mask;
    let right = b | mask;
    let upper_upper = left >> 24 == right >> 24;
    let upper_middle = (left >> 16) % 256 == (right >> 16) % 256;
    let lower_middle = (left >> 8) % 256 == (right >> 8) % 256;
    let lower_lower = left % 256 == right % 256;
    upper_upper & upper_middle & lower_middle & lower_lower
}

pub fn turn(invert: bool, agreed: bool) -> bool
    ensures { result ≡ turned invert agreed }
{
    invert != agreed
}
