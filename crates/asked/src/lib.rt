// A gateway's visit (docs/gateway.md): what is asked, in this order, and before which request a marker comes.
#![tactic(auto)]

ghost use Rattle.std.specs.Prelude.{◌≡◌, get_or};
ghost use Rattle.control.specs.Control.{control_numbers};
ghost use Rattle.asked.specs.VisitRequests.{address_at, begins, in_table, marked, register_request, request_at, table_request};

use memory::Size;
use requests::Request;

pub mod marker;

// RDREG 0 to 15, RCREG of ten, RDMREG 0.
pub const REGISTERS: u32 = 27;

// So many longwords of the table between two markers.
const BLOCK: u32 = 256;

const CONTROL_NUMBERS: [u32; 10] = [
    0x002, 0x004, 0x005, 0x801, 0x804, 0x805, 0x806, 0x80E, 0x80F, 0xC04,
];

pub fn control_number(i: u32) -> u32
    ensures { result ≡ get_or control_numbers i 0 }
{
    CONTROL_NUMBERS.get(i as usize).copied().unwrap_or(0)
}

fn register_request(j: u32) -> Request
    ensures { result ≡ register_request j }
{
    match j {
        0..=15 => Request::Rdreg(j),
        16..=25 => Request::Rcreg(control_number(j - 16)),
        _ => Request::Rdmreg(0),
    }
}

fn begins_block(k: u32) -> bool
    ensures { result ≡ begins k }
{
    k % BLOCK == 0
}

pub fn address_at(address: u32, k: u32) -> u32
    ensures { result ≡ address_at address k }
{
    address.wrapping_add(k.wrapping_mul(4))
}

fn table_request(address: u32, k: u32) -> Request
    ensures { result ≡ table_request address k }
{
    if begins_block(k) {
        Request::Read(Size::Long, address_at(address, k))
    } else {
        Request::Dump(Size::Long)
    }
}

#[tactic(auto, unfolding(crate::specs::VisitRequests::request_at))]
pub fn request_at(address: u32, j: u32) -> Request
    ensures { result ≡ request_at address j }
{
    if j < REGISTERS {
        register_request(j)
    } else {
        table_request(address, j - REGISTERS)
    }
}

pub fn is_in_table(j: u32) -> bool
    ensures { result ≡ in_table j }
{
    REGISTERS <= j
}

// A marker comes before request j of so many.
#[tactic(auto, unfolding(crate::specs::VisitRequests::marked))]
pub fn is_marked(ends: u32, j: u32) -> bool
    ensures { result ≡ marked ends j }
{
    (REGISTERS <= j && begins_block(j - REGISTERS)) || ends <= j
}
