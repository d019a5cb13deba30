// The text of refusals: `refused N at C`, `unclear`.
#![tactic(auto)]

ghost use Rattle.text.specs.Text.{Puts};
ghost use Rattle.refusal_text.specs.RefusalText.{unclear_text, refused_at, refused_text};

use grounds::Ground;
use text::{put_decimal, put_text};

pub fn put_unclear(text: &mut [u8]) -> usize
    ensures { Puts text.old 0 unclear_text text.new result }
{
    put_text(text, 0, b"unclear")
}

// `refused N at C`
pub fn put_refusal_at(text: &mut [u8], why: Ground, cycle: usize) -> usize
    ensures { Puts text.old 0 (refused_at why cycle) text.new result }
{
    let at = put_text(text, 0, b"refused ");
    let at = put_decimal(text, at, grounds::number_of(why) as usize);
    let at = put_text(text, at, b" at ");
    put_decimal(text, at, cycle)
}

// `refused N at 0`: only a trace is refused at a cycle.
pub fn put_refusal(text: &mut [u8], why: Ground) -> usize
    ensures { Puts text.old 0 (refused_text why) text.new result }
{
    put_refusal_at(text, why, 0)
}
