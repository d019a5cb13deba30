// What `mend` tells of a trace: the list of what was changed, a line each, or a refusal.
#![tactic(auto)]

ghost use Rattle.std.specs.Prelude.{◌≡◌, length};
ghost use Rattle.text.specs.Text.{Puts};
ghost use Rattle.mend_text.specs.MendText.{counts_line, change_line, change_lines, list_text, MendSaid};

use refusal_text::put_refusal;
use text::{put_byte, put_decimal, put_text};

// Where the text ends, and how many bytes go to standard output.
#[derive(Clone, Copy, Debug, PartialEq, Eq)]
pub struct Said {
    pub end: usize,
    pub cycles: usize,
}

// `mended cycles=N changed=K`
pub fn put_counts(text: &mut [u8], name: &[u8], cycles: usize, changed: usize) -> usize
    ensures { Puts text.old 0 (counts_line name.now cycles changed) text.new result }
{
    let at = put_text(text, 0, name);
    let at = put_text(text, at, b" cycles=");
    let at = put_decimal(text, at, cycles);
    let at = put_text(text, at, b" changed=");
    let at = put_decimal(text, at, changed);
    put_byte(text, at, b'\n')
}

// The cycle of a word and the PST that it had.
fn put_change(text: &mut [u8], at: usize, word: u32) -> usize
    ensures { Puts text.old at (change_line word) text.new result }
{
    let at = put_decimal(text, at, (word / 16) as usize);
    let at = put_byte(text, at, b' ');
    let at = put_decimal(text, at, (word % 16) as usize);
    put_byte(text, at, b'\n')
}

fn put_changes(text: &mut [u8], from: usize, words: &[u32]) -> usize
    ensures { Puts text.old from (change_lines words.now) text.new result }
{
    let mut at = from;
    for &word in words {
        at = put_change(text, at, word);
    }
    at
}

fn put_list(text: &mut [u8], cycles: usize, words: &[u32]) -> usize
    ensures { Puts text.old 0 (list_text cycles words.now) text.new result }
{
    let at = put_counts(text, b"mended", cycles, words.len());
    put_changes(text, at, words)
}

// Mends a trace and puts all that is told of it.
pub fn tell_mended(text: &mut [u8], trace: &[u8], bytes: &mut [u8], words: &mut [u32]) -> Said
    ensures { MendSaid trace.now text.old bytes.old words.old result
        text.new bytes.new words.new }
{
    match mending::mend_trace(trace, bytes, words) {
        Err(ground) => {
            let at = put_refusal(text, ground);
            Said {
                end: put_byte(text, at, b'\n'),
                cycles: 0,
            }
        }
        Ok(changed) => {
            let cycles = trace.len();
            let end = put_list(text, cycles, &words[..changed]);
            Said { end, cycles }
        }
    }
}
