// The text of requests: words to send, what was read, what an exchange came to.
#![tactic(auto)]

ghost use Rattle.text.specs.Text.{Puts};
ghost use Rattle.request_text.specs.RequestText.{outcome_text, words_text, so_far_text, used_text, reading_text, exchange_text};

use grounds::Ground;
use readings::Outcome;
use refusal_text::put_refusal;
use text::{put_byte, put_decimal, put_hex, put_text};

pub fn put_outcome(text: &mut [u8], outcome: Outcome) -> usize
    ensures { Puts text.old 0 (outcome_text outcome) text.new result }
{
    match outcome {
        Outcome::Value(value) => {
            let at = put_text(text, 0, b"value ");
            put_hex(text, at, value, 8)
        }
        Outcome::Complete => put_text(text, 0, b"complete"),
        Outcome::BusError => put_text(text, 0, b"bus-error"),
        Outcome::Illegal => put_text(text, 0, b"illegal"),
    }
}

// `words X X ..`
pub fn put_words(text: &mut [u8], words: &[u32]) -> usize
    ensures { Puts text.old 0 (words_text words.now) text.new result }
{
    let mut at = put_text(text, 0, b"words");
    for word in words {
        at = put_byte(text, at, b' ');
        at = put_hex(text, at, *word, 5);
    }
    at
}

fn put_used(text: &mut [u8], at: usize, used: usize) -> usize
    ensures { Puts text.old at (used_text used) text.new result }
{
    let at = put_text(text, at, b" used ");
    put_decimal(text, at, used)
}

fn put_so_far(text: &mut [u8], outcome: Option<Outcome>) -> usize
    ensures { Puts text.old 0 (so_far_text outcome) text.new result }
{
    match outcome {
        Some(outcome) => put_outcome(text, outcome),
        None => put_text(text, 0, b"not-yet"),
    }
}

// `.. used N`
pub fn put_reading(text: &mut [u8], reading: Result<(Option<Outcome>, usize), Ground>) -> usize
    ensures { Puts text.old 0 (reading_text reading) text.new result }
{
    match reading {
        Ok((outcome, used)) => {
            let at = put_so_far(text, outcome);
            put_used(text, at, used)
        }
        Err(ground) => put_refusal(text, ground),
    }
}

// `.. packets N`
pub fn put_exchange(text: &mut [u8], outcome: Outcome, packets: u32) -> usize
    ensures { Puts text.old 0 (exchange_text outcome packets) text.new result }
{
    let at = put_outcome(text, outcome);
    let at = put_text(text, at, b" packets ");
    put_decimal(text, at, packets as usize)
}
