// A check of the morning's: a script of lines, each behind its mark, is taken, and what came out is judged and put on the page.
// `+` marks a line of the desk's language whose answer is shown, any other mark one that prepares.
#![tactic(auto)]

ghost use Rattle.std.specs.Prelude.{◌≡◌, false, [], ◌∷◌, ◌+◌, ◌≤◌, length, drop};
ghost use Rattle.text.specs.Text.{Puts};
ghost use Rattle.answers.specs.Bench.{left};
ghost use Rattle.morning_page.specs.MorningPage.{check_of};
ghost use Rattle.scripts.specs.Script.{lines, line_length, answer_to, left_by, line_leaves, line_shows, leaves, shows, gap, came, begun, Went, CheckedSo};

use answers::{Answered, Bench};
use languages::Language;
use morning_page::put_check;
use scripts::{Checked, Gone};

// Between what was shown and what comes next.
fn put_gap(text: &mut [u8], at: usize, shown: bool) -> usize
    ensures { Puts text.old at (gap shown) text.new result }
{
    if shown {
        text::put_text(text, at, b", ")
    } else {
        at
    }
}

fn answer(line: &[u8], bench: Bench, memory: &mut [u8], text: &mut [u8]) -> Answered
    ensures { (left result.bench memory.new ≡ left_by line.now (left bench memory.old))
        × Puts text.old 0 (answer_to line.now (left bench memory.old)) text.new result.end }
{
    languages::answer(Language::Both, line, bench, memory, text)
}

// A line that prepares; its answer is not shown.
fn prepare(line: &[u8], bench: Bench, memory: &mut [u8]) -> Bench
    ensures { left result memory.new ≡ left_by line.now (left bench memory.old) }
{
    let mut text = [0u8; 4096];
    answer(line, bench, memory, &mut text).bench
}

// A line whose answer is shown behind those before it.
fn show(line: &[u8], gone: Gone, memory: &mut [u8], text: &mut [u8]) -> Gone
    requires { gone.end ≤ length text.old }
    ensures { Went (answer_to line.now (left gone.bench memory.old) ∷ [])
        (left_by line.now (left gone.bench memory.old))
        gone text.old result text.new memory.new }
{
    let at = put_gap(text, gone.end, gone.shown);
    let answered = answer(line, gone.bench, memory, &mut text[at..]);
    Gone {
        bench: answered.bench,
        end: at + answered.end,
        shown: true,
    }
}

// A line behind its mark.
fn take_line(line: &[u8], gone: Gone, memory: &mut [u8], text: &mut [u8]) -> Gone
    requires { gone.end ≤ length text.old }
    ensures { Went (line_shows line.now (left gone.bench memory.old))
        (line_leaves line.now (left gone.bench memory.old))
        gone text.old result text.new memory.new }
{
    let [mark, rest @ ..] = line else {
        return gone;
    };
    if *mark == b'+' {
        show(rest, gone, memory, text)
    } else {
        Gone {
            bench: prepare(rest, gone.bench, memory),
            ..gone
        }
    }
}

// How many bytes the first line has.
fn line_length(bytes: &[u8]) -> usize
    ensures { result ≡ line_length bytes.now }
{
    for (i, byte) in bytes.iter().enumerate() {
        if *byte == b'\n' {
            return i;
        }
    }
    bytes.len()
}

// Each line of a script; what was shown stands at the front of the text.
fn take_lines(script: &[u8], bench: Bench, memory: &mut [u8], text: &mut [u8]) -> Gone
    ensures { Went (shows (lines script.now) (left bench memory.old))
        (leaves (lines script.now) (left bench memory.old))
        (begun bench) text.old result text.new memory.new }
{
    let mut gone = Gone {
        bench,
        end: 0,
        shown: false,
    };
    let mut from: usize = 0;
    while from < script.len() {
        let end = from + line_length(&script[from..]);
        gone = take_line(&script[from..end], gone, memory, text);
        from = end + 1;
    }
    gone
}

pub fn check(
    number: u32,
    title: &[u8],
    script: &[u8],
    due: &[u8],
    before: Checked,
    memory: &mut [u8],
    page: &mut [u8],
) -> Checked
    ensures { CheckedSo number
        (check_of title.now due.now (came script.now (left before.bench memory.old)))
        (leaves (lines script.now) (left before.bench memory.old))
        before page.old result page.new memory.new }
{
    let mut text = [0u8; 4096];
    let gone = take_lines(script, before.bench, memory, &mut text);
    let judged = put_check(
        page,
        before.end,
        number,
        title,
        due,
        &text[..gone.end],
        before.bad,
    );
    Checked {
        bench: gone.bench,
        end: judged.end,
        bad: judged.bad,
    }
}
