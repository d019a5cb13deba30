// The pod's half: requests built and replies read (the desk's language, `pod`).
#![tactic(auto)]

ghost use Rattle.std.specs.Prelude.{◌≤◌, length, take};
ghost use Rattle.text.specs.Text.{Puts};
ghost use Rattle.request_text.specs.RequestText.{reading_text};
ghost use Rattle.readings.specs.Reading.{reading};
ghost use Rattle.pod_answers.specs.PodSaid.{built_text, pod_said};

use pod_lines::PodLine;
use refusal_text::{put_refusal, put_unclear};
use request_text::{put_reading, put_words};
use requests::Request;

fn build(request: Request, text: &mut [u8]) -> usize
    ensures { Puts text.old 0 (built_text request) text.new result }
{
    let mut buffer = [0u32; 5];
    match building::build(request, &mut buffer) {
        Ok(count) => put_words(text, &buffer[..count]),
        Err(ground) => put_refusal(text, ground),
    }
}

// What so many replies, those at the front, bring.
fn read(request: Request, replies: &[u32], count: usize, text: &mut [u8]) -> usize
    requires { count ≤ length replies.now }
    ensures { Puts text.old 0 (reading_text (reading request (take count replies.now))) text.new result }
{
    put_reading(text, readings::read(request, &replies[..count]))
}

// Where the answer to a line ends in the text; 0 where none is due. No line has more than 2,048 replies.
pub fn answer(line: &[u8], text: &mut [u8]) -> usize
    ensures { Puts text.old 0 (pod_said line.now) text.new result }
{
    // A line of no bytes asks for nothing: no room for replies is made.
    if line.is_empty() {
        return 0;
    }
    let mut replies = [0u32; 2048];
    match pod_lines::read_line(line, &mut replies) {
        PodLine::Nothing => 0,
        PodLine::Build(request) => build(request, text),
        PodLine::Read(request, count) => read(request, &replies, count, text),
        PodLine::BufferTooShort | PodLine::Unclear => put_unclear(text),
    }
}
