// The memory access of READ, WRITE, DUMP and FILL, and the pointer (01, "Packets").
#![tactic(auto)]

ghost use Rattle.std.specs.Prelude.{◌≡◌};
ghost use Rattle.access.specs.Access.{past, fetching, storing, start_of, access_of, memory_after, pointer_after};
ghost use Rattle.memory.specs.Memory.{stored};

use command::{Base, Command};
use memory::Size;

// What a command's access to memory found.
#[derive(Clone, Copy, Debug, PartialEq, Eq)]
pub enum Access {
    NoAccess,
    // The size, the value, and the pointer past it.
    Fetched(Size, u32, u32),
    // The pointer past it.
    Stored(u32),
    // The lowest address of it that is not there.
    Missing(u32),
}

fn past_access(size: Size, address: u32) -> u32
    ensures { result ≡ past size address }
{
    memory::align(size, address).wrapping_add(memory::byte_count(size))
}

fn fetch_access(memory: &[u8], size: Size, address: u32) -> Access
    ensures { result ≡ fetching memory.now size address }
{
    let end = past_access(size, address);
    match memory::fetch_at(memory, size, address) {
        Ok(value) => Access::Fetched(size, value, end),
        Err(first) => Access::Missing(first),
    }
}

fn store_access(memory: &mut [u8], size: Size, address: u32, value: u32) -> Access
    ensures { (result ≡ storing memory.old size address) × (memory.new ≡ stored memory.old size address value) }
{
    match memory::store_at(memory, size, address, value) {
        Ok(()) => Access::Stored(past_access(size, address)),
        Err(first) => Access::Missing(first),
    }
}

fn start(base: Base, pointer: u32, address: u32) -> u32
    ensures { result ≡ start_of base pointer address }
{
    match base {
        Base::Address => address,
        Base::Pointer => pointer,
    }
}

pub fn make_access(
    memory: &mut [u8],
    command: Command,
    pointer: u32,
    address: u32,
    value: u32,
) -> Access
    ensures { (result ≡ access_of command memory.old pointer address)
        × (memory.new ≡ memory_after command memory.old pointer address value) }
{
    match command {
        Command::Load(size, base) => fetch_access(memory, size, start(base, pointer, address)),
        Command::Store(size, base) => {
            store_access(memory, size, start(base, pointer, address), value)
        }
        Command::Unknown | Command::Nop | Command::Show(_) | Command::Change(_) => Access::NoAccess,
    }
}

pub fn pointer_after(access: Access, pointer: u32) -> u32
    ensures { result ≡ pointer_after access pointer }
{
    match access {
        Access::NoAccess | Access::Missing(_) => pointer,
        Access::Fetched(_, _, end) | Access::Stored(end) => end,
    }
}
