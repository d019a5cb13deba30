// The text of a listed trace: its head and its items, without line ends.
ghost use Rattle.text.specs.Text.{Puts};
ghost use Rattle.text.specs.ListingText.{head_text, words_of_item};

use crate::{put_byte, put_decimal, put_text};

// `trace cycles=N items=M`
pub fn put_head(text: &mut [u8], cycles: usize, items: usize) -> usize
    ensures { Puts text.old 0 (head_text cycles items) text.new result }
{
    let at = put_text(text, 0, b"trace cycles=");
    let at = put_decimal(text, at, cycles);
    let at = put_text(text, at, b" items=");
    put_decimal(text, at, items)
}

// Cycle, code and value of an item, from its two words.
pub fn put_item(text: &mut [u8], at: usize, word: u32, value: u32) -> usize
    ensures { Puts text.old at (words_of_item word value) text.new result }
{
    let at = put_decimal(text, at, (word / 16) as usize);
    let at = put_byte(text, at, b' ');
    let at = put_decimal(text, at, (word % 16) as usize);
    let at = put_byte(text, at, b' ');
    put_decimal(text, at, value as usize)
}
