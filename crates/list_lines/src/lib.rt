// The list that `mend` printed, read back: a head, and a line for each changed cycle.
#![tactic(auto)]

ghost use Rattle.std.specs.Prelude.{◌≡◌, ◌≤◌, length, drop};
ghost use Rattle.list_lines.specs.ListLines.{digits, number, named, line_word, lines_in, list_behind, list_in, LinesMeet, ListMeets};

// How many bytes the lines take, and whether there are as many as were asked for.
// A count and a flag, and no Option: the bytes used are told in both cases (LinesMeet).
#[derive(Clone, Copy, Debug, PartialEq, Eq)]
pub struct Lines {
    pub used: usize,
    pub all: bool,
}

// What a list says, and where the trace begins behind it.
#[derive(Clone, Copy, Debug, PartialEq, Eq)]
pub struct ListRead {
    pub cycles: usize,
    pub changed: usize,
    pub from: usize,
}

// Decimal digits up to a byte that ends them.
fn read_digits(bytes: &[u8], most: u32, end: u8) -> Option<(u32, usize)>
    ensures { result ≡ digits most end 0 0 bytes.now }
{
    let mut value = 0u64;
    for (i, &byte) in bytes.iter().enumerate() {
        if byte == end {
            return Some((value as u32, i + 1));
        }
        if !byte.is_ascii_digit() {
            return None;
        }
        value = value * 10 + u64::from(byte - b'0');
        if u64::from(most) < value {
            return None;
        }
    }
    None
}

// At least one of them.
fn read_number(bytes: &[u8], most: u32, end: u8) -> Option<(u32, usize)>
    ensures { result ≡ number most end bytes.now }
{
    if bytes.is_empty() || bytes[0] == end {
        return None;
    }
    read_digits(bytes, most, end)
}

// A name to the byte, and the number behind it.
fn read_named(bytes: &[u8], name: &[u8], most: u32, end: u8) -> Option<(u32, usize)>
    ensures { result ≡ named name.now most end bytes.now }
{
    let n = name.len();
    if !same::is_same(parts::front(bytes, n), name) {
        return None;
    }
    let (value, used) = read_number(parts::rest(bytes, n), most, end)?;
    Some((value, n + used))
}

// A line, as the list's word.
fn read_line(bytes: &[u8]) -> Option<(u32, usize)>
    ensures { result ≡ line_word bytes.now }
{
    let (cycle, used) = read_number(bytes, 65535, b' ')?;
    let (pst, more) = read_number(parts::rest(bytes, used), 15, b'\n')?;
    Some((cycle * 16 + pst, used + more))
}

// So many lines, their words at the front of the list.
fn read_lines(bytes: &[u8], count: usize, list: &mut [u32]) -> Lines
    requires { count ≤ length list.old }
    ensures { LinesMeet bytes.now count list.old result list.new }
{
    let mut at = 0usize;
    for k in 0..count {
        let Some((word, used)) = read_line(parts::rest(bytes, at)) else {
            return Lines {
                used: at,
                all: false,
            };
        };
        list[k] = word;
        at += used;
    }
    Lines {
        used: at,
        all: true,
    }
}

// The lines behind a head that was read up to a place.
fn read_changes(
    bytes: &[u8],
    cycles: u32,
    changed: u32,
    from: usize,
    list: &mut [u32],
) -> Option<ListRead>
    requires { (changed ≤ length list.old) × (from ≤ length bytes.now) }
    ensures { ListMeets (list_behind cycles changed from (lines_in changed (drop from bytes.now))) list.old result list.new }
{
    let lines = read_lines(parts::rest(bytes, from), changed as usize, list);
    if !lines.all {
        return None;
    }
    Some(ListRead {
        cycles: cycles as usize,
        changed: changed as usize,
        from: from + lines.used,
    })
}

// The list at the front of an input; its words at the front of the buffer.
pub fn read_list(bytes: &[u8], list: &mut [u32]) -> Option<ListRead>
    ensures { ListMeets (list_in (length list.old) bytes.now) list.old result list.new }
{
    let (cycles, used) = read_named(bytes, b"mended cycles=", 65536, b' ')?;
    let (changed, more) = read_named(parts::rest(bytes, used), b"changed=", 65536, b'\n')?;
    if list.len() < changed as usize {
        return None;
    }
    read_changes(bytes, cycles, changed, used + more, list)
}
