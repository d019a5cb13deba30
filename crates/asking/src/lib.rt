// A request asked of the bench: sent, and its replies read (the desk's language, `talk`).
#![tactic(auto)]

ghost use Rattle.std.specs.Prelude.{take};
ghost use Rattle.text.specs.Text.{Puts};
ghost use Rattle.answers.specs.Bench.{over_lent};
ghost use Rattle.answers.specs.Said.{Answers};
ghost use Rattle.asking.specs.Asking.{exchanged, exchanged_text, exchange_said};

use answers::{Answered, Bench};
use grounds::Ground;
use readings::Outcome;
use refusal_text::put_refusal;
use request_text::put_exchange;
use requests::Request;

fn put_exchanged(text: &mut [u8], answer: Result<(Outcome, u32), Ground>) -> usize
    ensures { Puts text.old 0 (exchanged_text answer) text.new result }
{
    match answer {
        Ok((outcome, packets)) => put_exchange(text, outcome, packets),
        Err(ground) => put_refusal(text, ground),
    }
}

fn converse(request: Request, bench: Bench, memory: &mut [u8], text: &mut [u8]) -> Answered
    ensures { Answers (exchanged request bench memory.old)
        (exchange_said request bench memory.old)
        text.old result memory.new text.new }
{
    let returned = exchange::exchange(request, bench.board, bench.place, memory);
    Answered {
        bench: Bench {
            board: returned.board,
            place: returned.place,
            ..bench
        },
        end: put_exchanged(text, returned.answer),
    }
}

// The exchange over the bytes lent, of those that there are.
pub fn ask(request: Request, bench: Bench, memory: &mut [u8], text: &mut [u8]) -> Answered
    ensures { Answers (over_lent (exchanged request) bench memory.old)
        (exchange_said request bench (take bench.lent memory.old))
        text.old result memory.new text.new }
{
    let n = lent::lent_of(bench.lent, memory.len());
    converse(request, bench, &mut memory[..n], text)
}
