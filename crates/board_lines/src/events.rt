// The desk's language: `event` lines, with the mark of request [6].
ghost use Rattle.std.specs.Prelude.{◌≡◌};
ghost use Rattle.words.specs.WordSteps.{words_left};
ghost use Rattle.board_lines.specs.EventLines.{access_line, event_form, halt_form, halt_line, event_line};

use crate::BoardLine;
use halting::Privilege;
use numbers::Numbers;
use words::Words;

fn access_line(
    pc: u32,
    address: u32,
    attribute: u32,
    lanes: u32,
    mark: Option<Privilege>,
) -> BoardLine
    ensures { result ≡ access_line pc address attribute lanes mark }
{
    if attribute <= 0xFF {
        BoardLine::EventWithAccess(pc, address, attribute, lanes, mark)
    } else {
        BoardLine::Unclear
    }
}

fn event_form(numbers: Numbers, mark: Option<Privilege>) -> BoardLine
    ensures { result ≡ event_form numbers mark }
{
    match numbers {
        Numbers::One(pc) => BoardLine::Event(pc, mark),
        Numbers::Four(pc, address, attribute, lanes) => {
            access_line(pc, address, attribute, lanes, mark)
        }
        _ => BoardLine::Unclear,
    }
}

#[tactic(auto, unfolding(crate::specs::EventLines::halt_form))]
fn halt_form(before: Numbers, privilege: &[u8]) -> BoardLine
    ensures { result ≡ halt_form before privilege.now }
{
    if words::is_same(privilege, b"user") {
        event_form(before, Some(Privilege::User))
    } else if words::is_same(privilege, b"supervisor") {
        event_form(before, Some(Privilege::Supervisor))
    } else {
        BoardLine::Unclear
    }
}

// The words behind `halt`: a privilege, and no more.
fn halt_line(mut words: Words, before: Numbers) -> BoardLine
    ensures { result ≡ halt_line before (words_left words.entry) }
{
    match words.next() {
        Some(privilege) if words.line.len() <= words::word_start(words.line, words.at) => {
            halt_form(before, privilege)
        }
        _ => BoardLine::Unclear,
    }
}

// The words behind `event`.
#[tactic(auto, unfolding(crate::specs::EventLines::event_line))]
pub fn event_line(mut words: Words) -> BoardLine
    ensures { result ≡ event_line (words_left words.entry) }
{
    let mut before = Numbers::Zero;
    while let Some(word) = words.next() {
        if words::is_same(word, b"halt") {
            return halt_line(words, before);
        }
        before = numbers::add_number(before, numbers::read_number(word));
    }
    event_form(before, None)
}
