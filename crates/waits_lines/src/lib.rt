// The lines of the file that `waits` is given (docs/waits.md): taken one after another on a bench, the requests' answers put down row by row.
#![tactic(auto)]

ghost use Rattle.std.specs.Prelude.{◌+◌, ◌≡◌, drop, position};
ghost use Rattle.console.specs.InputLines.{is_line_end};
ghost use Rattle.text.specs.Text.{Puts};
ghost use Rattle.answers.specs.Bench.{left, over_lent};
ghost use Rattle.asking.specs.Asking.{exchanged, exchange_outcome};
ghost use Rattle.talk_lines.specs.declared.TalkLine.TheVariants.{Board};
ghost use Rattle.waits_lines.specs.WaitsLines.{file_lines, line_length, ends_one, line_number, prepares, is_taken, left_as, answer_in, result_text, packets_in};
ghost use Rattle.waits_lines.specs.WaitsLines.{row_text, row_as, packets_as, LinesTaken};

use answers::Bench;
use board_lines::BoardLine;
use grounds::Ground;
use readings::Outcome;
use refusal_text::put_refusal;
use request_text::put_outcome;
use requests::Request;
use talk_lines::TalkLine;

// The bench after lines, where their rows end, their packets; whether all were taken, and where the first begins that was not.
// A flag and a place, and no Option: the place is told in both cases (LinesTaken).
#[derive(Clone, Copy)]
pub struct Gone {
    pub bench: Bench,
    pub end: usize,
    pub packets: usize,
    pub taken: bool,
    pub stray: usize,
}

// A request asked of the bench.
#[derive(Clone, Copy)]
struct Asked {
    bench: Bench,
    answer: Result<(Outcome, u32), Ground>,
}

// One line taken: the bench after it, where its row ends, its packets.
#[derive(Clone, Copy)]
struct Line {
    bench: Bench,
    end: usize,
    packets: usize,
}

fn first_line_end(bytes: &[u8]) -> Option<usize>
    ensures { result ≡ position is_line_end bytes.now }
{
    bytes.iter().position(|&byte| console::is_line_end(byte))
}

// Where the line that begins at a place ends.
pub fn line_end(input: &[u8], from: usize) -> usize
    ensures { result ≡ from + line_length (drop from input.now) }
{
    if from < input.len() {
        from + first_line_end(&input[from..]).unwrap_or(input.len() - from)
    } else {
        from
    }
}

fn ends_one(after_cr: bool, byte: u8) -> bool
    ensures { result ≡ ends_one after_cr byte }
{
    byte == b'\r' || (byte == b'\n' && !after_cr)
}

// The number of the line that comes behind such bytes.
pub fn line_number(before: &[u8]) -> usize
    ensures { result ≡ line_number before.now }
{
    let mut n = 1usize;
    let mut after_cr = false;
    for &byte in before {
        n += usize::from(ends_one(after_cr, byte));
        after_cr = byte == b'\r';
    }
    n
}

fn prepares(asked: BoardLine, lent: usize) -> bool
    ensures { result ≡ prepares asked lent }
{
    match asked {
        BoardLine::Nothing | BoardLine::Memory(_) => true,
        BoardLine::Bytes(address, _, count) => lent::is_lent(address, count, lent),
        _ => false,
    }
}

fn is_taken(asked: TalkLine, lent: usize) -> bool
    ensures { result ≡ is_taken asked lent }
{
    match asked {
        TalkLine::Board(line) => prepares(line, lent),
        TalkLine::Ask(_) => true,
    }
}

// The exchange over what is lent, which is all of these bytes.
fn converse(request: Request, bench: Bench, memory: &mut [u8]) -> Asked
    ensures { (result.answer ≡ exchange_outcome request bench memory.old)
        × (left result.bench memory.new ≡ exchanged request bench memory.old) }
{
    let returned = exchange::exchange(request, bench.board, bench.place, memory);
    Asked {
        bench: Bench {
            board: returned.board,
            place: returned.place,
            ..bench
        },
        answer: returned.answer,
    }
}

// The exchange over the bytes lent, of those that there are.
fn ask(request: Request, bench: Bench, memory: &mut [u8]) -> Asked
    ensures { (result.answer ≡ answer_in request (left bench memory.old))
        × (left result.bench memory.new ≡ over_lent (exchanged request) bench memory.old) }
{
    let n = lent::lent_of(bench.lent, memory.len());
    converse(request, bench, &mut memory[..n])
}

fn put_result(text: &mut [u8], answer: Result<(Outcome, u32), Ground>) -> usize
    ensures { Puts text.old 0 (result_text answer) text.new result }
{
    match answer {
        Ok((outcome, _)) => put_outcome(text, outcome),
        Err(ground) => put_refusal(text, ground),
    }
}

fn packets_in(answer: Result<(Outcome, u32), Ground>) -> u32
    ensures { result ≡ packets_in answer }
{
    match answer {
        Ok((_, packets)) => packets,
        Err(_) => 0,
    }
}

// No result has more bytes than its buffer.
fn put_row(text: &mut [u8], at: usize, line: &[u8], answer: Result<(Outcome, u32), Ground>) -> usize
    ensures { Puts text.old at (row_text line.now answer) text.new result }
{
    let mut result = [0u8; 64];
    let end = put_result(&mut result, answer);
    let to = text::put_text(text, at, line);
    let to = text::put_text(text, to, b": ");
    let to = text::put_text(text, to, &result[..end]);
    text::put_byte(text, to, b'\n')
}

// A line that prepares; its answer is not shown.
fn prepare(line: &[u8], asked: BoardLine, bench: Bench, memory: &mut [u8]) -> Bench
    ensures { left result memory.new ≡ left_as line.now (Board asked) (left bench memory.old) }
{
    let mut text = [0u8; 16];
    line_answers::answer_line(line, asked, bench, memory, &mut text).bench
}

fn take_line(
    line: &[u8],
    asked: TalkLine,
    bench: Bench,
    memory: &mut [u8],
    text: &mut [u8],
    at: usize,
) -> Line
    ensures { (left result.bench memory.new ≡ left_as line.now asked (left bench memory.old))
        × Puts text.old at (row_as line.now asked (left bench memory.old)) text.new result.end
        × (result.packets ≡ packets_as asked (left bench memory.old)) }
{
    match asked {
        TalkLine::Board(asked) => Line {
            bench: prepare(line, asked, bench, memory),
            end: at,
            packets: 0,
        },
        TalkLine::Ask(request) => {
            let asked = ask(request, bench, memory);
            Line {
                bench: asked.bench,
                end: put_row(text, at, line, asked.answer),
                packets: packets_in(asked.answer) as usize,
            }
        }
    }
}

// Each line from the first on, up to one that is not taken.
pub fn take_lines(input: &[u8], bench: Bench, memory: &mut [u8], text: &mut [u8]) -> Gone
    ensures { LinesTaken (file_lines input.now) (left bench memory.old) text.old result
        text.new memory.new }
{
    let mut b = bench;
    let mut at = 0usize;
    let mut packets = 0usize;
    let mut from = 0usize;
    // A while: how far the next line is depends on where this one ends, and `split` would put a line behind the last line end.
    while from < input.len() {
        let end = line_end(input, from);
        let asked = talk_lines::read_talk_line(&input[from..end]);
        if !is_taken(asked, b.lent) {
            return Gone {
                bench: b,
                end: at,
                packets,
                taken: false,
                stray: from,
            };
        }
        let taken = take_line(&input[from..end], asked, b, memory, text, at);
        b = taken.bench;
        at = taken.end;
        packets = packets.saturating_add(taken.packets);
        from = end + 1;
    }
    Gone {
        bench: b,
        end: at,
        packets,
        taken: true,
        stray: from,
    }
}
