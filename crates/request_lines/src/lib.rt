// The desk's language: "A REQUEST is ..".
#![tactic(auto)]

ghost use Rattle.std.specs.Prelude.{◌≡◌, []};
ghost use Rattle.words.specs.LineWords.{words, words_from};
ghost use Rattle.request_lines.specs.RequestLines.{size_behind, plain_request, register_read, register_written};
ghost use Rattle.request_lines.specs.RequestLines.{request_of_none, request_of_one, request_of_two, request_form, request_of};

use memory::Size;
use numbers::Numbers;
use requests::Request;
use words::Words;

#[tactic(auto, unfolding(crate::specs::RequestLines::size_behind))]
fn size_named(suffix: &[u8]) -> Option<Size>
    ensures { result ≡ size_behind suffix.now [] }
{
    if words::is_same(suffix, b".b") {
        Some(Size::Byte)
    } else if words::is_same(suffix, b".w") {
        Some(Size::Word)
    } else if words::is_same(suffix, b".l") {
        Some(Size::Long)
    } else {
        None
    }
}

#[tactic(auto, using(crate::specs::RequestLineLaws::by_stem))]
fn size_behind(name: &[u8], stem: &[u8]) -> Option<Size>
    ensures { result ≡ size_behind name.now stem.now }
{
    match name.split_at_checked(stem.len()) {
        Some((front, suffix)) if words::is_same(front, stem) => size_named(suffix),
        _ => None,
    }
}

#[tactic(auto, unfolding(crate::specs::RequestLines::plain_request))]
fn plain_request(name: &[u8]) -> Option<Request>
    ensures { result ≡ plain_request name.now }
{
    if words::is_same(name, b"go") {
        Some(Request::Go)
    } else if words::is_same(name, b"nop") {
        Some(Request::Nop)
    } else if words::is_same(name, b"sync_pc") {
        Some(Request::SyncPc)
    } else {
        None
    }
}

#[tactic(auto, unfolding(crate::specs::RequestLines::register_read))]
fn register_read(name: &[u8], n: u32) -> Option<Request>
    ensures { result ≡ register_read name.now n }
{
    if words::is_same(name, b"rdreg") {
        Some(Request::Rdreg(n))
    } else if words::is_same(name, b"rcreg") {
        Some(Request::Rcreg(n))
    } else if words::is_same(name, b"rdmreg") {
        Some(Request::Rdmreg(n))
    } else {
        None
    }
}

#[tactic(auto, unfolding(crate::specs::RequestLines::register_written))]
fn register_written(name: &[u8], n: u32, value: u32) -> Option<Request>
    ensures { result ≡ register_written name.now n value }
{
    if words::is_same(name, b"wdreg") {
        Some(Request::Wdreg(n, value))
    } else if words::is_same(name, b"wcreg") {
        Some(Request::Wcreg(n, value))
    } else if words::is_same(name, b"wdmreg") {
        Some(Request::Wdmreg(n, value))
    } else {
        None
    }
}

fn request_of_none(name: &[u8]) -> Option<Request>
    ensures { result ≡ request_of_none name.now }
{
    size_behind(name, b"dump")
        .map(|size| Request::Dump(size))
        .or_else(|| plain_request(name))
}

fn request_of_one(name: &[u8], n: u32) -> Option<Request>
    ensures { result ≡ request_of_one name.now n }
{
    size_behind(name, b"read")
        .map(|size| Request::Read(size, n))
        .or_else(|| size_behind(name, b"fill").map(|size| Request::Fill(size, n)))
        .or_else(|| register_read(name, n))
}

fn request_of_two(name: &[u8], n: u32, value: u32) -> Option<Request>
    ensures { result ≡ request_of_two name.now n value }
{
    size_behind(name, b"write")
        .map(|size| Request::Write(size, n, value))
        .or_else(|| register_written(name, n, value))
}

pub fn read_form(name: &[u8], numbers: Numbers) -> Option<Request>
    ensures { result ≡ request_form name.now numbers }
{
    match numbers {
        Numbers::Zero => request_of_none(name),
        Numbers::One(n) => request_of_one(name, n),
        Numbers::Two(n, value) => request_of_two(name, n, value),
        Numbers::Three(..) | Numbers::Four(..) | Numbers::NotNumbers => None,
    }
}

// A request from a place to the end of the line.
pub fn read_request(line: &[u8], from: usize) -> Option<Request>
    ensures { result ≡ request_of (words_from line.now from) }
{
    let mut words = Words { line, at: from };
    let name = words.next()?;
    read_form(name, numbers::read_numbers(line, words.at))
}

// A request alone on its line.
pub fn read_alone(line: &[u8]) -> Option<Request>
    ensures { result ≡ request_of (words line.now) }
{
    read_request(line, 0)
}
