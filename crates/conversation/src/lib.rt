// A conversation: line after line to the end of the input, each answered in one of the desk's languages before the next is read.
#![tactic(auto)]

ghost use Rattle.std.specs.Prelude.{◌≤◌, ◌<◌, length, take};
ghost use Rattle.console.specs.LineReading.{unread_of};
ghost use Rattle.course.specs.Course.{opening, ServedMeets, CourseMeets};

use answers::Bench;
use console::{Input, Unread};
use course::Served;
use languages::Language;
use std::io::{Stdin, Stdout};

// One line's answer is written.
fn serve(
    output: Stdout,
    language: Language,
    line: &[u8],
    bench: Bench,
    memory: &mut [u8],
    text: &mut [u8],
) -> Served
    ensures { ServedMeets language line.now bench memory.old text.old
        result memory.new text.new }
{
    let over = common_lines::is_quit(line);
    let answered = languages::answer(language, line, bench, memory, text);
    if 0 < answered.end {
        console::say(output, text, answered.end);
    }
    Served {
        bench: answered.bench,
        over,
    }
}

// Line after line from what is unread of the source on, to `quit` or the end of the input. The budget of lines is never used up.
fn run(
    input: Stdin,
    output: Stdout,
    language: Language,
    source: &mut [u8],
    start: Unread,
    line: &mut [u8],
    text: &mut [u8],
    memory: &mut [u8],
) -> Bench
    requires { 4096 < length line.old }
    ensures { CourseMeets language (unread_of source.old start.at start.end) opening memory.old text.old
        result memory.new text.new }
{
    let mut bench = answers::opened();
    let mut unread = start;
    for _ in 0..u64::MAX {
        let taken = console::next_line(input, source, unread, line);
        unread = taken.unread;
        match taken.input {
            Input::Line(held) => {
                let served = serve(output, language, &line[..held], bench, memory, text);
                bench = served.bench;
                if served.over {
                    return bench;
                }
            }
            Input::Last(held) => {
                return serve(output, language, &line[..held], bench, memory, text).bench;
            }
        }
    }
    bench
}

// The lines of standard input, each answered before the next is read.
pub fn hold(input: Stdin, output: Stdout, language: Language) {
    let mut source = [0u8; 65536];
    let mut line = [0u8; 4097];
    let mut text = [0u8; 4096];
    let mut memory = [0u8; 65552];
    let nothing = Unread { at: 0, end: 0 };
    run(
        input,
        output,
        language,
        &mut source,
        nothing,
        &mut line,
        &mut text,
        &mut memory,
    );
}
