// The desk's language: the lines of `talk`.
#![tactic(auto)]

ghost use Rattle.std.specs.Prelude.{◌≡◌};
ghost use Rattle.talk_lines.specs.TalkLines.{without_packet, asked_or, either_line, talk_line};

use board_lines::BoardLine;
use requests::Request;
use words::LineKind;

// A line of `stand_in` or a request; in `talk` never a packet.
#[derive(Clone, Copy)]
pub enum TalkLine {
    Board(BoardLine),
    Ask(Request),
}

fn leave_out_packet(line: BoardLine) -> BoardLine
    ensures { result ≡ without_packet line }
{
    if let BoardLine::Packet(_) = line {
        BoardLine::Unclear
    } else {
        line
    }
}

fn ask_or(asked: Option<Request>, line: BoardLine) -> TalkLine
    ensures { result ≡ asked_or asked line }
{
    asked.map_or(TalkLine::Board(line), |request| TalkLine::Ask(request))
}

// A request alone on its line, or else a line of `stand_in`.
#[tactic(auto, unfolding(crate::specs::TalkLines::either_line))]
pub fn read_either_line(line: &[u8]) -> TalkLine
    ensures { result ≡ either_line line.now }
{
    match words::kind_of(line) {
        LineKind::Silent => TalkLine::Board(BoardLine::Nothing),
        LineKind::Clear => ask_or(
            request_lines::read_alone(line),
            board_lines::read_words(line),
        ),
        LineKind::TooLong => TalkLine::Board(BoardLine::Unclear),
    }
}

pub fn read_talk_line(line: &[u8]) -> TalkLine
    ensures { result ≡ talk_line line.now }
{
    match read_either_line(line) {
        TalkLine::Board(asked) => TalkLine::Board(leave_out_packet(asked)),
        TalkLine::Ask(request) => TalkLine::Ask(request),
    }
}
