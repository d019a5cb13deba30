// The bytes that the bench lends: zeros, and what the bench itself puts there, not through the port.
#![tactic(auto)]

ghost use Rattle.std.specs.Prelude.{◌+◌, ◌*◌, min, ◌≡◌, set};
ghost use Rattle.std.proofs.lemmas.List.Edits.{sets};
ghost use Rattle.numbers.specs.Numbers.{byte_at};
ghost use Rattle.lent.specs.Lent.{zeros, bytes_from, fits, bytes_put};

// The bytes lent, of those that there are.
pub fn lent_of(lent: usize, most: usize) -> usize
    ensures { result ≡ min lent most }
{
    lent.min(most)
}

// So many zero bytes at the front.
pub fn clear(memory: &mut [u8], count: usize)
    ensures { memory.new ≡ sets memory.old 0 (zeros count) }
{
    let end = count.min(memory.len());
    memory[..end].fill(0);
}

fn copy_bytes(line: &[u8], start: usize, count: usize, memory: &mut [u8], to: usize)
    ensures { memory.new ≡ sets memory.old to (bytes_from line.now start count) }
{
    for i in 0..count {
        put_one(line, start, memory, to, i);
    }
}

// The byte of a line's digits, so many bytes after a place; 0 beyond the line.
fn byte_after(line: &[u8], start: usize, i: usize) -> u32
    ensures { result ≡ byte_at line.now (start + 2 * i) }
{
    if line.len() <= start || (line.len() - start) / 2 < i {
        return 0;
    }
    numbers::byte_at(line, start + 2 * i)
}

fn put_one(line: &[u8], start: usize, memory: &mut [u8], to: usize, i: usize)
    ensures { memory.new ≡ set memory.old (to + i) (byte_at line.now (start + 2 * i)) }
{
    let place = to.saturating_add(i);
    if place < memory.len() {
        memory[place] = (byte_after(line, start, i) % 256) as u8;
    }
}

// Whether so many bytes from an address on are lent.
pub fn is_lent(address: u32, count: usize, lent: usize) -> bool
    ensures { result ≡ fits address count lent }
{
    let from = address as usize;
    from <= lent && count <= lent - from
}

// The bytes of a line's digits at an address, all of them where they are lent, and none where they are not; whether they are.
pub fn put_bytes(
    line: &[u8],
    start: usize,
    count: usize,
    address: u32,
    lent: usize,
    memory: &mut [u8],
) -> bool
    ensures { (result ≡ fits address count lent)
        × (memory.new ≡ bytes_put line.now start count address lent memory.old) }
{
    let fits = is_lent(address, count, lent);
    if fits {
        copy_bytes(line, start, count, memory, address as usize);
    }
    fits
}
