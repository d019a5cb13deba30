// The answer to a line of the board's, as the desk's language has it for stand_in and talk.
#![tactic(auto)]

ghost use Rattle.line_answers.specs.LineSaid.{LineMeets};

use answers::{Answered, Bench};
use board_lines::BoardLine;
use refusal_text::put_unclear;
use trigger::Event;

// The answer to a line of the board's, put at the front of the text.
#[tactic(auto, unfolding(answers::specs::Bench::leaves, crate::specs::LineSaid::said))]
pub fn answer_line(
    line: &[u8],
    asked: BoardLine,
    bench: Bench,
    memory: &mut [u8],
    text: &mut [u8],
) -> Answered
    ensures { LineMeets line.now asked bench memory.old text.old
        result memory.new text.new }
{
    match asked {
        BoardLine::Nothing => Answered { bench, end: 0 },
        BoardLine::Make(w) => answers::make(w, bench, text),
        BoardLine::Memory(n) => answers::lend(n, bench, memory, text),
        BoardLine::Bytes(address, start, count) => {
            answers::put_bytes(line, address, start, count, bench, memory, text)
        }
        BoardLine::Packet(word) => answers::packet_line(word, bench, memory, text),
        BoardLine::Event(pc, mark) => answers::watch(
            Event {
                pc,
                bus: None,
                mark,
            },
            bench,
            text,
        ),
        BoardLine::EventWithAccess(pc, address, attribute, lanes, mark) => {
            answers::watch(
                answers::carrying(pc, address, attribute, lanes, mark),
                bench,
                text,
            )
        }
        BoardLine::Breakpoint => answers::press(bench, text),
        BoardLine::Peek(address, count) => answers::show_bytes(address, count, bench, memory, text),
        BoardLine::State => answers::tell_state(bench, text),
        BoardLine::Unclear => Answered {
            bench,
            end: put_unclear(text),
        },
    }
}
