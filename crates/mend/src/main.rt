// Mends the trace on standard input, one byte a cycle, onto standard output; what was changed goes to standard error.
#![tactic(auto)]

use std::io::{Stderr, Stdin, Stdout};

fn mend_input(
    input: Stdin,
    output: Stdout,
    errors: &mut Stderr,
    trace: &mut [u8],
    bytes: &mut [u8],
    words: &mut [u32],
    text: &mut [u8],
) {
    let cycles = console::read_full(input, trace);
    let said = mend_text::tell_mended(text, &trace[..cycles], bytes, words);
    console::write(output, bytes, said.cycles);
    console::write_to(errors, text, said.end);
}

// A trace of 65,536 bytes, a list of 65,536 words and a text of 600,000 bytes are never too short (mend_laws' MendRoomLaws).
fn main(rt: HostRuntime) {
    let mut trace = [0u8; 65537];
    let mut bytes = [0u8; 65536];
    let mut words = [0u32; 65536];
    let mut text = [0u8; 600000];
    let mut errors = rt.stderr();
    mend_input(
        rt.stdin(),
        rt.stdout(),
        &mut errors,
        &mut trace,
        &mut bytes,
        &mut words,
        &mut text,
    );
}
