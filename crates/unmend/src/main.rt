// Puts a mended trace back as it was recorded, by the list that stands before it on standard input. What it comes to is said on standard error.
#![tactic(auto)]

use std::io::{Stderr, Stdin, Stdout};

// What was read, unmended in its place and written out.
fn write_unmended(
    output: &mut Stdout,
    errors: &mut Stderr,
    input: &mut [u8],
    words: &mut [u32],
    text: &mut [u8],
) {
    let said = unmend_text::tell_unmended(text, input, words);
    console::write_all(output, parts::rest(input, said.from));
    console::write_to(errors, text, said.end);
}

fn unmend_input(
    source: Stdin,
    output: &mut Stdout,
    errors: &mut Stderr,
    input: &mut [u8],
    words: &mut [u32],
    text: &mut [u8],
) {
    let bytes = console::read_full(source, input);
    write_unmended(output, errors, &mut input[..bytes], words, text);
}

// One byte more than an input may have, so that a longer one is seen; a list of 65,536 words is never too short.
fn main(rt: HostRuntime) {
    let mut input = [0u8; 700001];
    let mut words = [0u32; 65536];
    let mut text = [0u8; 128];
    let mut output = rt.stdout();
    let mut errors = rt.stderr();
    unmend_input(
        rt.stdin(),
        &mut output,
        &mut errors,
        &mut input,
        &mut words,
        &mut text,
    );
}
