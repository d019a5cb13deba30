// The text of a page: its lines, or its refusal.
#![tactic(auto)]

mod lines;

ghost use Rattle.std.specs.Prelude.{◌≡◌, length};
ghost use Rattle.summary.specs.Page.{page_verdict, index_after};
ghost use Rattle.text.specs.Text.{Puts};
ghost use Rattle.page_text.specs.PageText.{page_lines, page_text, printed};

use refusal_text::put_refusal_at;
use summary::page;
use summary::page::Page;

// The lines of a page whose trace was read; of the index those that its cycles have, as far as there are.
fn put_lines(text: &mut [u8], page: Page, items: usize, index: &[u32]) -> usize
    ensures { Puts text.old 0 (page_lines page items index.now) text.new result }
{
    let at = lines::put_head(text, 0, page.cycles as usize, items, page.starts as usize);
    let at = lines::put_rate(text, at, page.rate, page.cycles, page.starts);
    let at = lines::put_codes(text, at, page);
    let entries = (page.cycles as usize + 255) / 256;
    lines::put_index(text, at, &index[..entries.min(index.len())])
}

fn put_page(text: &mut [u8], page: Page, index: &[u32]) -> usize
    ensures { Puts text.old 0 (page_text page index.now) text.new result }
{
    match page.judged {
        Err(refused) => {
            let at = put_refusal_at(text, refused.why, refused.cycle);
            text::put_byte(text, at, b'\n')
        }
        Ok(items) => put_lines(text, page, items, index),
    }
}

// All that is printed of a trace; its index is left in the words lent.
pub fn put_printed(text: &mut [u8], trace: &[u8], index: &mut [u32]) -> usize
    ensures { Puts text.old 0 (printed trace.now (length index.old)) text.new result
        × (index.new ≡ index_after trace.now index.old (page_verdict trace.now (length index.old))) }
{
    let page = page::make_page(trace, index);
    put_page(text, page, index)
}
