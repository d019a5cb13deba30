// Prints the page of the trace on standard input, one byte a cycle.
#![tactic(auto)]

// An index of 256 entries and a text of 40,960 bytes are never too short (page_text's PageRoomLaws).
fn main(rt: HostRuntime) {
    let mut trace = [0u8; 65537];
    let mut index = [0u32; 256];
    let mut text = [0u8; 40960];
    let cycles = console::read_full(rt.stdin(), &mut trace);
    let end = page_text::put_printed(&mut text, &trace[..cycles], &mut index);
    console::write(rt.stdout(), &text, end);
}
