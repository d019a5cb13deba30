// The lister's lines of a trace in one line: parted by a comma and a space, as the morning's page has them.
#![tactic(auto)]

ghost use Rattle.std.specs.Prelude.{◌≡◌, length};
ghost use Rattle.listing.specs.Listing.{listing, words_after};
ghost use Rattle.text.specs.Text.{Puts};
ghost use Rattle.listed.specs.Listed.{items_text, listed_text};

use refusal_text::put_refusal_at;
use text::listing::{put_head, put_item};
use text::put_text;

fn put_items(words: &[u32], text: &mut [u8], from: usize) -> usize
    ensures { Puts text.old from (items_text words.now) text.new result }
{
    let mut at = from;
    for k in 0..words.len() / 2 {
        at = put_text(text, at, b", ");
        at = put_item(text, at, words[2 * k], words[2 * k + 1]);
    }
    at
}

// What the lister has of a trace, at the front of the text; its items are left in the words lent, as the listing leaves them.
pub fn put_listing(trace: &[u8], words: &mut [u32], text: &mut [u8]) -> usize
    ensures { Puts text.old 0 (listed_text trace.now (length words.old)) text.new result
        × (words.new ≡ words_after trace.now words.old (listing trace.now (length words.old))) }
{
    match listing::list_trace(trace, words) {
        Err(refused) => put_refusal_at(text, refused.why, refused.cycle),
        Ok(items) => {
            let at = put_head(text, trace.len(), items);
            put_items(&words[..2 * items], text, at)
        }
    }
}
