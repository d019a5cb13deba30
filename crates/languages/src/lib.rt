// What a line is taken for in each of the desk's languages, and its answer.
#![tactic(auto)]

ghost use Rattle.std.specs.Prelude.{◌≡◌};
ghost use Rattle.languages.specs.declared.Heard.TheVariants.{OfBench};
ghost use Rattle.languages.specs.Heard.{heard_own, heard, HeardMeets};

use answers::{Answered, Bench};
use common_lines::CommonLine;
use talk_lines::TalkLine;

mod help;

// Which lines are taken.
#[derive(Clone, Copy, Debug, PartialEq, Eq)]
pub enum Language {
    // `packet`, and no request
    StandIn,
    // requests, and no `packet`
    Talk,
    // stand_in's and talk's
    Both,
    // the pod's half, without a board
    Pod,
}

// What a line is taken for.
#[derive(Clone, Copy)]
pub enum Heard {
    OfBench(TalkLine),
    OfPod,
    ForHelp(Language),
    ToQuit,
}

#[tactic(auto, unfolding(crate::specs::Heard::heard_own))]
fn hear_own(language: Language, line: &[u8]) -> Heard
    ensures { result ≡ heard_own language line.now }
{
    match language {
        Language::StandIn => Heard::OfBench(TalkLine::Board(board_lines::read_line(line))),
        Language::Talk => Heard::OfBench(talk_lines::read_talk_line(line)),
        Language::Both => Heard::OfBench(talk_lines::read_either_line(line)),
        Language::Pod => Heard::OfPod,
    }
}

#[tactic(auto, unfolding(crate::specs::Heard::heard))]
fn hear(language: Language, line: &[u8]) -> Heard
    ensures { result ≡ heard language line.now }
{
    match common_lines::read_line(line) {
        CommonLine::Help => Heard::ForHelp(language),
        CommonLine::Quit => Heard::ToQuit,
        CommonLine::Other => hear_own(language, line),
    }
}

#[tactic(auto, unfolding(crate::specs::Heard::after, crate::specs::Heard::said_to))]
fn answer_of_bench(
    asked: TalkLine,
    line: &[u8],
    bench: Bench,
    memory: &mut [u8],
    text: &mut [u8],
) -> Answered
    ensures { HeardMeets line.now (OfBench asked) bench memory.old text.old
        result memory.new text.new }
{
    match asked {
        TalkLine::Board(asked) => line_answers::answer_line(line, asked, bench, memory, text),
        TalkLine::Ask(request) => asking::ask(request, bench, memory, text),
    }
}

// A line's answer in the text, and the bench after it.
#[tactic(auto, unfolding(crate::specs::Heard::after, crate::specs::Heard::said_to))]
pub fn answer(
    language: Language,
    line: &[u8],
    bench: Bench,
    memory: &mut [u8],
    text: &mut [u8],
) -> Answered
    ensures { HeardMeets line.now (heard language line.now) bench memory.old text.old
        result memory.new text.new }
{
    match hear(language, line) {
        Heard::OfBench(asked) => answer_of_bench(asked, line, bench, memory, text),
        Heard::OfPod => Answered {
            bench,
            end: pod_answers::answer(line, text),
        },
        Heard::ForHelp(asked) => Answered {
            bench,
            end: help::put_help(asked, text),
        },
        Heard::ToQuit => Answered {
            bench,
            end: text::put_text(text, 0, b"bye"),
        },
    }
}
