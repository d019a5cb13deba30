// The pod's half (01, "What the desk checks by eye"): a request's command and operand words, C clear, into a lent buffer.
#![tactic(auto)]

ghost use Rattle.std.specs.Prelude.{◌≡◌, true, ◌+◌, ◌≤◌, length};
ghost use Rattle.std.proofs.lemmas.List.Edits.{sets};
ghost use Rattle.requests.specs.Request.{in_range};
ghost use Rattle.command.specs.Command.{size_words};
ghost use Rattle.building.specs.RequestWords.{size_code, command_word, halves, data_words, operands, built_words};
ghost use Rattle.building.specs.Building.{BuildingMeets};

use grounds::Ground;
use memory::Size;
use requests::Request;

fn size_code(size: Size) -> u32
    ensures { result ≡ size_code size }
{
    match size {
        Size::Byte => 0x00,
        Size::Word => 0x40,
        Size::Long => 0x80,
    }
}

#[tactic(auto, using(crate::specs::RequestWordLaws::command_word_clear))]
fn command_word(request: Request) -> u32
    requires { in_range request ≡ true }
    ensures { result ≡ command_word request }
{
    match request {
        Request::Rdreg(register) => 0x2180 + register,
        Request::Wdreg(register, _) => 0x2080 + register,
        Request::Read(size, _) => 0x1900 + size_code(size),
        Request::Write(size, _, _) => 0x1800 + size_code(size),
        Request::Dump(size) => 0x1D00 + size_code(size),
        Request::Fill(size, _) => 0x1C00 + size_code(size),
        Request::Go => 0x0C00,
        Request::Nop => 0x0000,
        Request::SyncPc => 0x0001,
        Request::Rcreg(_) => 0x2980,
        Request::Wcreg(_, _) => 0x2880,
        Request::Rdmreg(n) => 0x2D80 + n,
        Request::Wdmreg(n, _) => 0x2C80 + n,
    }
}

fn size_count(size: Size) -> usize
    ensures { result ≡ size_words size }
{
    match size {
        Size::Byte | Size::Word => 1,
        Size::Long => 2,
    }
}

#[tactic(auto, using(command::specs::CommandLaws::size_words_bound, crate::specs::RequestWordLaws::data_length))]
fn word_count(request: Request) -> usize
    ensures { result ≡ length (built_words request) }
{
    match request {
        Request::Rdreg(_)
        | Request::Dump(_)
        | Request::Go
        | Request::Nop
        | Request::SyncPc
        | Request::Rdmreg(_) => 1,
        Request::Wdreg(..) | Request::Read(..) | Request::Rcreg(_) | Request::Wdmreg(..) => 3,
        Request::Wcreg(..) => 5,
        Request::Write(size, ..) => 3 + size_count(size),
        Request::Fill(size, _) => 1 + size_count(size),
    }
}

fn put_halves(words: &mut [u32], at: usize, value: u32)
    requires { at + 2 ≤ length words.old }
    ensures { words.new ≡ sets words.old at (halves value) }
{
    words[at] = value / 65536;
    words[at + 1] = value % 65536;
}

fn put_data(words: &mut [u32], at: usize, size: Size, value: u32)
    requires { at + size_words size ≤ length words.old }
    ensures { words.new ≡ sets words.old at (data_words size value) }
{
    match size {
        Size::Byte | Size::Word => words[at] = value,
        Size::Long => put_halves(words, at, value),
    }
}

#[tactic(auto, using(crate::specs::RequestWordLaws::data_length))]
fn put_operands(words: &mut [u32], request: Request)
    requires { 1 + length (operands request) ≤ length words.old }
    ensures { words.new ≡ sets words.old 1 (operands request) }
{
    match request {
        Request::Rdreg(_)
        | Request::Dump(_)
        | Request::Go
        | Request::Nop
        | Request::SyncPc
        | Request::Rdmreg(_) => {}
        Request::Wdreg(_, value)
        | Request::Read(_, value)
        | Request::Rcreg(value)
        | Request::Wdmreg(_, value) => { put_halves(words, 1, value) }
        Request::Wcreg(rc, value) => {
            put_halves(words, 1, rc);
            put_halves(words, 3, value);
        }
        Request::Write(size, address, value) => {
            put_halves(words, 1, address);
            put_data(words, 3, size, value);
        }
        Request::Fill(size, value) => put_data(words, 1, size, value),
    }
}

fn put_words(words: &mut [u32], request: Request)
    requires { (in_range request ≡ true) × (length (built_words request) ≤ length words.old) }
    ensures { words.new ≡ sets words.old 0 (built_words request) }
{
    words[0] = command_word(request);
    put_operands(words, request);
}

// The built words stand at the front; the words beyond them stay, and where it is refused all do.
#[tactic(auto, using(laws::specs::StoreLaws::sets_front), unfolding(crate::specs::Building::building_verdict))]
pub fn build(request: Request, words: &mut [u32]) -> Result<usize, Ground>
    ensures { BuildingMeets request words.old result words.new }
{
    if !requests::is_in_range(request) {
        return Err(Ground::RequestOutOfRange);
    }
    let count = word_count(request);
    if words.len() < count {
        return Err(Ground::BufferTooShort);
    }
    put_words(words, request);
    Ok(count)
}
