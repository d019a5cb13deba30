// Prints the page of the file on standard input: its requests at every W.
#![tactic(auto)]

// The buffers are never too short (waits_laws' WaitsRoomLaws).
fn main(rt: HostRuntime) {
    let mut input = [0u8; 16385];
    let mut due_memory = [0u8; 65552];
    let mut memory = [0u8; 65552];
    let mut due = [0u8; 327680];
    let mut text = [0u8; 327680];
    let mut page = [0u8; 331776];
    let count = console::read_full(rt.stdin(), &mut input);
    let end = waits_page::put_page(
        &mut page,
        &input[..count],
        &mut due_memory,
        &mut due,
        &mut memory,
        &mut text,
    );
    console::write(rt.stdout(), &page, end);
}
