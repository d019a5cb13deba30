// The desk's language: numbers, and the numbers of a line.
#![tactic(auto)]

ghost use Rattle.std.specs.Prelude.{◌≡◌, ◌≤◌};
ghost use Rattle.words.specs.LineWords.{words_from};
ghost use Rattle.numbers.specs.Numbers.{digit, all_digits, prefix_length, numeral, more, numbers, byte_at};

use words::Words;

// Words as numbers, up to four: as variants and no list, so that a reader's `match` says which count each form has, and no place is empty.
#[derive(Clone, Copy, Debug, PartialEq, Eq)]
pub enum Numbers {
    Zero,
    One(u32),
    Two(u32, u32),
    Three(u32, u32, u32),
    Four(u32, u32, u32, u32),
    NotNumbers,
}

#[tactic(auto, using(crate::specs::NumberLaws::by_range), unfolding(crate::specs::Numbers::digit))]
fn digit_of(byte: u8) -> u32
    ensures { (result ≡ digit byte) × (result ≤ 16) }
{
    let b = u32::from(byte);
    match b {
        48..=57 => b - 48,
        65..=70 => b - 55,
        97..=102 => b - 87,
        _ => 16,
    }
}

pub fn are_digits(word: &[u8]) -> bool
    ensures { result ≡ all_digits word.now }
{
    word.iter().all(|byte| digit_of(*byte) <= 15)
}

pub fn byte_at(line: &[u8], at: usize) -> u32
    ensures { result ≡ byte_at line.now at }
{
    if line.len() <= at {
        return 0;
    }
    let high = digit_of(line[at]) % 16;
    if line.len() - at == 1 {
        return high * 16;
    }
    let low = digit_of(line[at + 1]) % 16;
    high * 16 + low
}

// The bytes of `0x` before a number.
#[tactic(auto, using(crate::specs::NumberLaws::no_prefix), unfolding(crate::specs::Numbers::prefix_length))]
fn prefix_length(word: &[u8]) -> usize
    ensures { result ≡ prefix_length word.now }
{
    if word.len() < 2 {
        return 0;
    }
    if words::is_same(&word[..2], b"0x") {
        2
    } else {
        0
    }
}

#[tactic(auto, using(crate::specs::NumberLaws::number_bad, crate::specs::NumberLaws::number_wide))]
pub fn read_number(word: &[u8]) -> Option<u32>
    ensures { result ≡ numeral word.now }
{
    let start = prefix_length(word);
    if word.len() <= start {
        return None;
    }
    let mut value: u32 = 0;
    let digits = &word[start..];
    for byte in digits {
        let digit = digit_of(*byte);
        if 15 < digit || 0x0FFFFFFF < value {
            return None;
        }
        value = value * 16 + digit;
    }
    Some(value)
}

pub fn add_number(before: Numbers, numeral: Option<u32>) -> Numbers
    ensures { result ≡ more before numeral }
{
    let Some(n) = numeral else {
        return Numbers::NotNumbers;
    };
    match before {
        Numbers::Zero => Numbers::One(n),
        Numbers::One(a) => Numbers::Two(a, n),
        Numbers::Two(a, b) => Numbers::Three(a, b, n),
        Numbers::Three(a, b, c) => Numbers::Four(a, b, c, n),
        Numbers::Four(..) | Numbers::NotNumbers => Numbers::NotNumbers,
    }
}

// The words from a place on, as numbers.
pub fn read_numbers(line: &[u8], from: usize) -> Numbers
    ensures { result ≡ numbers (words_from line.now from) }
{
    let mut numbers = Numbers::Zero;
    for word in (Words { line, at: from }) {
        numbers = add_number(numbers, read_number(word));
    }
    numbers
}
