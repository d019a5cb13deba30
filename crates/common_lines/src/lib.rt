// The desk's language: the lines that every program has, `help` and `quit`.
#![tactic(auto)]

ghost use Rattle.std.specs.Prelude.{◌≡◌};
ghost use Rattle.words.specs.LineWords.{words};
ghost use Rattle.common_lines.specs.CommonLines.{common_name, common_words, common_line, quits};

use words::{LineKind, Words};

#[derive(Clone, Copy, Debug, PartialEq, Eq)]
pub enum CommonLine {
    Help,
    Quit,
    // A line of the program's own, if of any.
    Other,
}

#[tactic(auto, unfolding(crate::specs::CommonLines::common_name))]
fn read_name(name: &[u8]) -> CommonLine
    ensures { result ≡ common_name name.now }
{
    if words::is_same(name, b"help") {
        CommonLine::Help
    } else if words::is_same(name, b"quit") {
        CommonLine::Quit
    } else {
        CommonLine::Other
    }
}

fn read_words(line: &[u8]) -> CommonLine
    ensures { result ≡ common_words (words line.now) }
{
    let mut words = Words { line, at: 0 };
    match words.next() {
        // A second word is not passed over, only looked for.
        Some(name) if line.len() <= words::word_start(line, words.at) => read_name(name),
        _ => CommonLine::Other,
    }
}

#[tactic(auto, unfolding(crate::specs::CommonLines::common_line))]
pub fn read_line(line: &[u8]) -> CommonLine
    ensures { result ≡ common_line line.now }
{
    match words::kind_of(line) {
        LineKind::Clear => read_words(line),
        LineKind::Silent | LineKind::TooLong => CommonLine::Other,
    }
}

pub fn is_quit(line: &[u8]) -> bool
    ensures { result ≡ quits line.now }
{
    matches!(read_line(line), CommonLine::Quit)
}
