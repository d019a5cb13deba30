// The pod's half (01, "What the desk checks by eye"): requests, their ranges, and the result that each asks for.
#![tactic(auto)]

ghost use Rattle.std.specs.Prelude.{◌≡◌};
ghost use Rattle.requests.specs.Request.{data_in_range, in_range, kind_of};

use memory::Size;

// A command of the table with its fields: a register, Rc or n first, or the size and the address, and then the data.
#[derive(Clone, Copy)]
pub enum Request {
    Rdreg(u32),
    Wdreg(u32, u32),
    Read(Size, u32),
    Write(Size, u32, u32),
    Dump(Size),
    Fill(Size, u32),
    Go,
    Nop,
    SyncPc,
    Rcreg(u32),
    Wcreg(u32, u32),
    Rdmreg(u32),
    Wdmreg(u32, u32),
}

fn is_data(size: Size, value: u32) -> bool
    ensures { result ≡ data_in_range size value }
{
    match size {
        Size::Byte => value <= 0xFF,
        Size::Word => value <= 0xFFFF,
        Size::Long => true,
    }
}

pub fn is_in_range(request: Request) -> bool
    ensures { result ≡ in_range request }
{
    match request {
        Request::Rdreg(register) | Request::Wdreg(register, _) => register <= 15,
        Request::Write(size, _, value) | Request::Fill(size, value) => is_data(size, value),
        Request::Rcreg(rc) | Request::Wcreg(rc, _) => rc <= 0xFFF,
        Request::Rdmreg(n) | Request::Wdmreg(n, _) => n <= 31,
        // An address is a longword, and each number of its type is one.
        Request::Read(..) | Request::Dump(_) | Request::Go | Request::Nop | Request::SyncPc => true,
    }
}

pub fn kind_of(request: Request) -> Option<Size>
    ensures { result ≡ kind_of request }
{
    match request {
        Request::Rdreg(_) | Request::Rcreg(_) | Request::Rdmreg(_) => Some(Size::Long),
        Request::Read(size, _) | Request::Dump(size) => Some(size),
        Request::Wdreg(..)
        | Request::Write(..)
        | Request::Fill(..)
        | Request::Wcreg(..)
        | Request::Wdmreg(..) => None,
        Request::Go | Request::Nop | Request::SyncPc => None,
    }
}
