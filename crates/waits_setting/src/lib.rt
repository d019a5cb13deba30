// What came out at one W held against what is due, and its line (docs/waits.md).
#![tactic(auto)]

ghost use Rattle.std.specs.Prelude.{◌≡◌, get_or};
ghost use Rattle.text.specs.Text.{Puts};
ghost use Rattle.waits_setting.specs.WaitsSetting.{came_of, is_same, first_other, line_start, other_line, memory_text, judged_text, setting_text, JudgedSo};

use parts::{front, rest};
use same::is_same;
use text::{put_byte, put_decimal, put_hex, put_text};
use waits_lines::line_end;

// Where the page ends, and whether all was the same.
#[derive(Clone, Copy, Debug, PartialEq, Eq)]
pub struct Judged {
    pub end: usize,
    pub same: bool,
}

// The first place at which two differ.
fn first_other(due: &[u8], came: &[u8]) -> usize
    ensures { result ≡ first_other due.now came.now }
{
    for (i, &byte) in due.iter().enumerate() {
        if came.len() <= i || byte != came[i] {
            return i;
        }
    }
    due.len()
}

// Where the line begins that goes on behind these bytes.
fn line_start(before: &[u8]) -> usize
    ensures { result ≡ line_start 0 0 before.now }
{
    let mut start = 0usize;
    for (i, &byte) in before.iter().enumerate() {
        if byte == b'\n' {
            start = i + 1;
        }
    }
    start
}

fn put_other_line(page: &mut [u8], at: usize, due: &[u8], came: &[u8]) -> usize
    ensures { Puts page.old at (other_line due.now came.now) page.new result }
{
    let start = line_start(front(came, first_other(due, came)));
    let line = rest(came, start);
    let end = line_end(line, 0);
    put_text(page, at, front(line, end))
}

fn byte_at(bytes: &[u8], at: usize) -> u32
    ensures { result ≡ get_or bytes.now at 0 }
{
    u32::from(bytes.get(at).copied().unwrap_or(0))
}

fn put_memory(page: &mut [u8], at: usize, due: &[u8], came: &[u8]) -> usize
    ensures { Puts page.old at (memory_text due.now came.now) page.new result }
{
    let other = first_other(due, came);
    let to = put_text(page, at, b" differs: memory ");
    let to = put_hex(page, to, (other % 4294967296) as u32, 8);
    let to = put_byte(page, to, b' ');
    put_hex(page, to, byte_at(came, other), 2)
}

fn put_judged(
    page: &mut [u8],
    at: usize,
    due: &[u8],
    came: &[u8],
    due_memory: &[u8],
    memory: &[u8],
) -> Judged
    ensures { JudgedSo
        (judged_text (came_of due.now due_memory.now) (came_of came.now memory.now))
        (is_same (came_of due.now due_memory.now) (came_of came.now memory.now))
        page.old at result page.new }
{
    if !is_same(due, came) {
        let to = put_text(page, at, b" differs: ");
        Judged {
            end: put_other_line(page, to, due, came),
            same: false,
        }
    } else if is_same(due_memory, memory) {
        Judged {
            end: put_text(page, at, b" same"),
            same: true,
        }
    } else {
        Judged {
            end: put_memory(page, at, due_memory, memory),
            same: false,
        }
    }
}

pub fn put_setting(
    page: &mut [u8],
    at: usize,
    w: u32,
    packets: usize,
    due: &[u8],
    came: &[u8],
    due_memory: &[u8],
    memory: &[u8],
) -> Judged
    ensures { JudgedSo
        (setting_text w packets (came_of due.now due_memory.now) (came_of came.now memory.now))
        (is_same (came_of due.now due_memory.now) (came_of came.now memory.now))
        page.old at result page.new }
{
    let to = put_text(page, at, b"w ");
    let to = put_hex(page, to, w, 1);
    let to = put_text(page, to, b" packets ");
    let to = put_decimal(page, to, packets);
    let judged = put_judged(page, to, due, came, due_memory, memory);
    Judged {
        end: put_byte(page, judged.end, b'\n'),
        ..judged
    }
}
