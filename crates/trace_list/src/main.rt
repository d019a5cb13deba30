// Lists the trace on standard input, one byte a cycle: a head, then the cycle, code and value of each item in decimal, as a walk
// hands them out. With an argument FROM, the listing starts at that cycle, by way of the index.
#![tactic(auto)]

mod asked;

ghost use Rattle.std.specs.Prelude.{◌≡◌, ◌+◌, ◌*◌, ◌≤◌, length};
ghost use Rattle.grounds.specs.Grounds.{number};
ghost use Rattle.trace.specs.Items.{items, words};
ghost use Rattle.index.specs.Index.{Bytes};
ghost use Rattle.steps.specs.WalkStep.{StartMeets};
ghost use Rattle.text.specs.Text.{Puts, written};
ghost use Rattle.console.specs.LineWriting.{laid};
ghost use Rattle.trace_list.specs.ListerLines.{item_line, item_lines, refused_line, head_line, unclear_line};
ghost use Rattle.console.specs.GatheringMirror.{place_in, parts};
ghost use Rattle.trace_list.specs.ListerPartsMirror.{GoodStart, item_in, whole_parts, from_parts, rest_parts, ShownMeets, listed_parts};
ghost use Rattle.trace_list.specs.Asked.{AskedMeets};
ghost use Rattle.trace_list.specs.declared.asked.Asked.TheVariants.{Whole, From};

use asked::Asked;
use console::arguments;
use cycle::Item;
use grounds::Ground;
use refusal_text::{put_refusal_at, put_unclear};
use std::env::Env;
use std::io::{Stdin, Stdout};
use steps::Cursor;
use summary::page;
use text::listing::{put_head, put_item};
use trace::Refused;

// An item's first word.
fn word_of(item: Item) -> u32
    requires { item.cycle ≤ 65536 }
    ensures { result ≡ item.cycle * 16 + item.code }
{
    item.cycle as u32 * 16 + u32::from(item.code)
}

// One more item's line; the place after it.
fn add_item(output: Stdout, text: &mut [u8], at: usize, word: u32, value: u32) -> usize
    ensures { Puts text.old (place_in (length text.old) at) (item_line word value) text.new result }
{
    let mut output = output;
    let from = console::make_room(&mut output, text, at);
    let end = put_item(text, from, word, value);
    text::put_byte(text, end, b'\n')
}

// The items' lines, gathered in the text and written out in large parts.
fn write_items(output: Stdout, words: &[u32], text: &mut [u8])
    ensures { text.new ≡ laid text.old (parts (length text.old) (item_lines words.now)) }
{
    let mut at = 0;
    for k in 0..words.len() / 2 {
        at = add_item(output, text, at, words[2 * k], words[2 * k + 1]);
    }
    console::write(output, text, at);
}

// A walk whose start was refused hands out no item.
fn item_of(handed: Result<Option<Item>, Refused>) -> Option<Item>
    ensures { result ≡ item_in handed }
{
    handed.unwrap_or(None)
}

// The lines of the items that a walk hands out, one a step, until it hands out none.
fn write_walk(output: Stdout, trace: &[u8], start: Cursor, text: &mut [u8])
    requires trace_fits { length trace.now ≤ 65537 }
    requires start_meets { StartMeets trace.now start × GoodStart start.start }
    ensures { text.new
        ≡ laid text.old (parts (length text.old) (item_lines (words (items trace.now)))) }
{
    let mut at = 0;
    let mut cursor = start;
    loop {
        let step = walk::next_item(trace, cursor);
        let Some(item) = item_of(step.handed) else {
            break;
        };
        at = add_item(output, text, at, word_of(item), item.value);
        cursor = step.cursor;
    }
    console::write(output, text, at);
}

fn say_refusal(output: Stdout, why: Ground, cycle: usize, text: &mut [u8])
    ensures { text.new ≡ written text.old 0 (refused_line (number why) cycle) }
{
    let end = put_refusal_at(text, why, cycle);
    console::say(output, text, end);
}

fn say_head(output: Stdout, cycles: usize, items: usize, text: &mut [u8])
    ensures { text.new ≡ written text.old 0 (head_line cycles items) }
{
    let end = put_head(text, cycles, items);
    console::say(output, text, end);
}

// What a listing answered, and the items whose words it left.
fn write_listing(
    output: Stdout,
    listed: Result<usize, Refused>,
    cycles: usize,
    words: &[u32],
    text: &mut [u8],
)
    ensures { text.new
        ≡ laid text.old (listed_parts (length text.old) cycles words.now listed) }
{
    match listed {
        Err(refused) => say_refusal(output, refused.why, refused.cycle, text),
        Ok(items) => {
            say_head(output, cycles, items, text);
            let room = words.len() / 2;
            if items <= room {
                write_items(output, &words[..2 * items], text);
            }
        }
    }
}

// The whole trace: how the walk's start was judged, and what its steps hand out.
fn write_whole(output: Stdout, trace: &[u8], text: &mut [u8])
    requires { length trace.now ≤ 65537 }
    ensures { Bytes trace.now
        × (text.new ≡ laid text.old (whole_parts (length text.old) trace.now)) }
{
    let start = walk::start_cursor(trace);
    match start.start {
        Err(refused) => say_refusal(output, refused.why, refused.cycle, text),
        Ok(items) => {
            say_head(output, trace.len(), items, text);
            write_walk(output, trace, start, text);
        }
    }
}

fn say_unclear(output: Stdout, text: &mut [u8])
    ensures { text.new ≡ written text.old 0 unclear_line }
{
    let end = put_unclear(text);
    console::say(output, text, end);
}

// The listing from a cycle on, by its entry in the index. A cycle without one is unclear.
fn write_from(
    output: Stdout,
    trace: &[u8],
    from: usize,
    index: &[u32],
    words: &mut [u32],
    text: &mut [u8],
)
    ensures { text.new ≡ laid text.old
        (from_parts (length text.old) trace.now from index.now (length words.old)) }
{
    let place = from / 256;
    if trace.len() <= from {
        say_unclear(output, text);
        return;
    }
    if index.len() <= place {
        say_unclear(output, text);
        return;
    }
    let entry = index::read_entry(from, index[place]);
    let listed = index::list_from(trace, entry, words);
    write_listing(output, listed, trace.len(), words, text);
}

// The whole trace is judged before FROM is looked up.
fn list_from(output: Stdout, trace: &[u8], from: usize, words: &mut [u32], text: &mut [u8])
    ensures { Bytes trace.now × (text.new ≡ laid text.old
        (rest_parts (length text.old) trace.now from (length words.old))) }
{
    let mut index = [0u32; 256];
    match page::make_page(trace, &mut index).judged {
        Err(refused) => say_refusal(output, refused.why, refused.cycle, text),
        Ok(_) => write_from(output, trace, from, &index, words, text),
    }
}

fn list_whole(input: Stdin, output: Stdout, text: &mut [u8])
    ensures { ShownMeets Whole text.old text.new }
{
    let mut trace = [0u8; 65537];
    let cycles = console::read_full(input, &mut trace);
    write_whole(output, &trace[..cycles], text);
}

// A buffer of four words a cycle is never too short.
fn list_rest(input: Stdin, output: Stdout, from: usize, text: &mut [u8])
    ensures { ShownMeets (From from) text.old text.new }
{
    let mut trace = [0u8; 65537];
    let mut words = [0u32; 262144];
    let cycles = console::read_full(input, &mut trace);
    list_from(output, &trace[..cycles], from, &mut words, text);
}

fn answer(input: Stdin, output: Stdout, asked: Asked, text: &mut [u8])
    ensures { ShownMeets asked text.old text.new }
{
    match asked {
        Asked::Unclear => say_unclear(output, text),
        Asked::Whole => list_whole(input, output, text),
        Asked::From(from) => list_rest(input, output, from as usize, text),
    }
}

// What the words behind the program's name ask. No word is longer than Linux lets one be, 131,071 bytes.
fn read_asked<R: Env>(rt: &R) -> Asked
    ensures { AskedMeets result }
{
    match arguments::count(rt) {
        0 | 1 => Asked::Whole,
        2 => {
            let mut word = [0u8; 131072];
            let end = arguments::word(rt, 1, &mut word);
            asked::read_from(&word[..end])
        }
        _ => Asked::Unclear,
    }
}

fn main(rt: HostRuntime) {
    let mut text = [0u8; 16384];
    answer(rt.stdin(), rt.stdout(), read_asked(&rt), &mut text);
}
