// The text of a page, a line at a time, each with its line end.
ghost use Rattle.std.specs.Prelude.{◌≤◌, ◌++◌, length};
ghost use Rattle.text.specs.Text.{Puts, ascii};
ghost use Rattle.text.specs.NumberText.{hex_text, decimal_text};
ghost use Rattle.page_text.specs.PageText.{head_line, places_text, rate_line, code_line, code_lines, transfer_text, run_text, entry_line, index_from};

use cycle::Carried;
use index::Entry;
use summary::page::Page;
use text::{put_byte, put_decimal, put_hex, put_text};

fn end_line(text: &mut [u8], at: usize) -> usize
    ensures { Puts text.old at (ascii "\n") text.new result }
{
    put_byte(text, at, b'\n')
}

// A word and a number.
fn put_named(text: &mut [u8], at: usize, name: &[u8], number: usize) -> usize
    ensures { Puts text.old at (name.now ++ decimal_text number) text.new result }
{
    let at = put_text(text, at, name);
    put_decimal(text, at, number)
}

// `page cycles=N items=M starts=S`
pub fn put_head(text: &mut [u8], at: usize, cycles: usize, items: usize, starts: usize) -> usize
    ensures { Puts text.old at (head_line cycles items starts) text.new result }
{
    let at = put_named(text, at, b"page cycles=", cycles);
    let at = put_named(text, at, b" items=", items);
    let at = put_named(text, at, b" starts=", starts);
    end_line(text, at)
}

// Hundredths as a number with two places.
fn put_hundredths(text: &mut [u8], at: usize, hundredths: u64) -> usize
    ensures { Puts text.old at (places_text hundredths) text.new result }
{
    let at = put_decimal(text, at, (hundredths / 100) as usize);
    let at = put_byte(text, at, b'.');
    let at = put_decimal(text, at, (hundredths / 10 % 10) as usize);
    put_decimal(text, at, (hundredths % 10) as usize)
}

fn put_bits(text: &mut [u8], at: usize, bits: u64) -> usize
    ensures { Puts text.old at (hex_text 16 bits) text.new result }
{
    let at = put_hex(text, at, (bits / 0x100000000) as u32, 8);
    put_hex(text, at, (bits % 0x100000000) as u32, 8)
}

// `rate R bits B`, or `rate none`
pub fn put_rate(text: &mut [u8], at: usize, rate: Option<f64>, cycles: u32, starts: u32) -> usize
    ensures { Puts text.old at (rate_line rate cycles starts) text.new result }
{
    match rate {
        None => put_text(text, at, b"rate none\n"),
        Some(_) => {
            let at = put_text(text, at, b"rate ");
            let at = put_hundredths(text, at, rate::count_hundredths(cycles, starts));
            let at = put_text(text, at, b" bits ");
            let at = put_bits(text, at, rate::bits_of(rate));
            end_line(text, at)
        }
    }
}

// `code N count C first F last L`, where the code occurs
fn put_code(text: &mut [u8], at: usize, code: usize, count: u32, first: u32, last: u32) -> usize
    ensures { Puts text.old at (code_line code count first last) text.new result }
{
    if count == 0 {
        return at;
    }
    let at = put_named(text, at, b"code ", code);
    let at = put_named(text, at, b" count ", count as usize);
    let at = put_named(text, at, b" first ", first as usize);
    let at = put_named(text, at, b" last ", last as usize);
    end_line(text, at)
}

pub fn put_codes(text: &mut [u8], from: usize, page: Page) -> usize
    ensures { Puts text.old from (code_lines page) text.new result }
{
    let mut at = from;
    for code in 0..16 {
        at = put_code(
            text,
            at,
            code,
            page.counts[code],
            page.firsts[code],
            page.lasts[code],
        );
    }
    at
}

fn put_transfer(text: &mut [u8], at: usize, carried: Carried) -> usize
    ensures { Puts text.old at (transfer_text carried) text.new result }
{
    if carried.due == 0 {
        return put_text(text, at, b" transfer none");
    }
    let at = put_named(text, at, b" transfer ", carried.marker as usize);
    put_named(text, at, b" due ", carried.due as usize)
}

fn put_run(text: &mut [u8], at: usize, carried: Carried) -> usize
    ensures { Puts text.old at (run_text carried) text.new result }
{
    if carried.run == 0 {
        return put_text(text, at, b" run none");
    }
    put_named(text, at, b" run ", carried.run as usize)
}

// `index K items N transfer M due D run R`
fn put_entry(text: &mut [u8], at: usize, entry: Entry) -> usize
    ensures { Puts text.old at (entry_line entry) text.new result }
{
    let carried = entry.carried;
    let at = put_named(text, at, b"index ", entry.cycle);
    let at = put_named(text, at, b" items ", entry.items);
    let at = put_transfer(text, at, carried);
    let at = put_run(text, at, carried);
    end_line(text, at)
}

// A line for each entry of the index.
pub fn put_index(text: &mut [u8], from: usize, index: &[u32]) -> usize
    requires { length index.now ≤ 16777216 }
    ensures { Puts text.old from (index_from 0 index.now) text.new result }
{
    let mut at = from;
    for (k, &word) in index.iter().enumerate() {
        at = put_entry(text, at, index::read_entry(256 * k, word));
    }
    at
}
