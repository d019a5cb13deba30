// Lent memory at address 0, most significant byte first (01, "Packets").
#![tactic(auto)]

ghost use Rattle.std.specs.Prelude.{◌≡◌, false, ◌+◌, ◌≤◌, ◌<◌, length};
ghost use Rattle.memory.specs.Memory.{bytes, aligned, present, first_missing, word_at, value_at, fetched, put_word, put_at, stored, reach};

#[derive(Clone, Copy, Debug, PartialEq, Eq)]
pub enum Size {
    Byte,
    Word,
    Long,
}

pub fn byte_count(size: Size) -> u32
    ensures { result ≡ bytes size }
{
    match size {
        Size::Byte => 1,
        Size::Word => 2,
        Size::Long => 4,
    }
}

pub fn align(size: Size, address: u32) -> u32
    ensures { result ≡ aligned size address }
{
    match size {
        Size::Byte => address,
        Size::Word => address - address % 2,
        Size::Long => address - address % 4,
    }
}

pub fn is_present(memory: &[u8], size: Size, address: u32) -> bool
    ensures { result ≡ present memory.now size address }
{
    let at = align(size, address) as usize;
    let n = byte_count(size) as usize;
    at + n <= memory.len()
}

fn first_missing(memory: &[u8], size: Size, address: u32) -> u32
    requires { present memory.now size address ≡ false }
    ensures { result ≡ first_missing memory.now size address }
{
    let at = align(size, address) as usize;
    at.max(memory.len()) as u32
}

fn word_at(memory: &[u8], at: usize) -> u32
    requires { at + 2 ≤ length memory.now }
    ensures { (result ≡ word_at memory.now at) × (result < 65536) }
{
    u32::from(memory[at]) * 256 + u32::from(memory[at + 1])
}

fn value_at(memory: &[u8], size: Size, at: usize) -> u32
    requires { at + bytes size ≤ length memory.now }
    ensures { result ≡ value_at memory.now size at }
{
    match size {
        Size::Byte => u32::from(memory[at]),
        Size::Word => word_at(memory, at),
        Size::Long => word_at(memory, at) * 65536 + word_at(memory, at + 2),
    }
}

#[tactic(auto, unfolding(crate::specs::Memory::fetched))]
pub fn fetch_at(memory: &[u8], size: Size, address: u32) -> Result<u32, u32>
    ensures { result ≡ fetched memory.now size address }
{
    if is_present(memory, size, address) {
        let at = align(size, address) as usize;
        return Ok(value_at(memory, size, at));
    }
    Err(first_missing(memory, size, address))
}

fn put_word(memory: &mut [u8], at: usize, value: u32)
    requires { at + 2 ≤ length memory.old }
    ensures { memory.new ≡ put_word memory.old at value }
{
    memory[at] = (value / 256 % 256) as u8;
    memory[at + 1] = (value % 256) as u8;
}

fn put_at(memory: &mut [u8], size: Size, at: usize, value: u32)
    requires { at + bytes size ≤ length memory.old }
    ensures { memory.new ≡ put_at memory.old size at value }
{
    match size {
        Size::Byte => memory[at] = (value % 256) as u8,
        Size::Word => put_word(memory, at, value),
        Size::Long => {
            put_word(memory, at, value / 65536);
            put_word(memory, at + 2, value);
        }
    }
}

// Where a byte of the access is not there, nothing is stored.
#[tactic(auto, unfolding(crate::specs::Memory::stored, crate::specs::Memory::reach))]
pub fn store_at(memory: &mut [u8], size: Size, address: u32, value: u32) -> Result<(), u32>
    ensures { (result ≡ reach memory.old size address) × (memory.new ≡ stored memory.old size address value) }
{
    if is_present(memory, size, address) {
        let at = align(size, address) as usize;
        put_at(memory, size, at, value);
        return Ok(());
    }
    Err(first_missing(memory, size, address))
}
