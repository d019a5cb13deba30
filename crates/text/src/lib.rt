// The text of answers: bytes and numbers at a place of a text. What does not fit is left out.
#![tactic(auto)]

ghost use Rattle.std.specs.Prelude.{◌≡◌, [], ◌∷◌, ◌≤◌, ◌<◌, ◌/◌, ◌^◌};
ghost use Rattle.text.specs.Text.{Puts, flag_text};
ghost use Rattle.text.specs.NumberText.{digit_text, digits_text, width, hex_text, number_text, decimal_text};

pub mod listing;

// The place after the byte; a byte beyond the text is left out.
pub fn put_byte(text: &mut [u8], at: usize, byte: u8) -> usize
    ensures { Puts text.old at (byte ∷ []) text.new result }
{
    if at < text.len() {
        text[at] = byte;
        at + 1
    } else {
        at
    }
}

pub fn put_text(text: &mut [u8], at: usize, part: &[u8]) -> usize
    ensures { Puts text.old at part.now text.new result }
{
    let mut to = at;
    for byte in part {
        to = put_byte(text, to, *byte);
    }
    to
}

pub fn put_flag(text: &mut [u8], at: usize, flag: bool) -> usize
    ensures { Puts text.old at (flag_text flag) text.new result }
{
    put_byte(text, at, if flag { b'1' } else { b'0' })
}

fn digit_of(value: usize) -> u8
    requires { value < 16 }
    ensures { result ≡ digit_text value }
{
    let low = value as u8;
    if low < 10 {
        low + b'0'
    } else {
        low - 10 + b'A'
    }
}

// A value without its lowest so many digits.
fn shifted(value: usize, base: usize, digits: usize) -> usize
    requires { 0 < base }
    ensures { result ≡ value / base ^ digits }
{
    let mut rest = value;
    for _ in 0..digits {
        rest /= base;
    }
    rest
}

// How many digits a value has; 0 has one.
fn width_of(value: usize, base: usize) -> usize
    requires { 0 < base }
    ensures { result ≡ width base value }
{
    let mut rest = value / base;
    for digits in 1..20 {
        if rest == 0 {
            return digits;
        }
        rest /= base;
    }
    20
}

// The lowest so many digits of a value.
fn put_digits(text: &mut [u8], at: usize, value: usize, base: usize, digits: usize) -> usize
    requires { (0 < base) × (base ≤ 16) }
    ensures { Puts text.old at (digits_text base digits value) text.new result }
{
    let mut to = at;
    for left in (0..digits).rev() {
        to = put_byte(text, to, digit_of(shifted(value, base, left) % base));
    }
    to
}

// So many digits, upper case, with leading zeros.
pub fn put_hex(text: &mut [u8], at: usize, value: u32, digits: u32) -> usize
    ensures { Puts text.old at (hex_text digits value) text.new result }
{
    put_digits(text, at, value as usize, 16, digits as usize)
}

// Hexadecimal, without leading zeros.
pub fn put_number(text: &mut [u8], at: usize, value: usize) -> usize
    ensures { Puts text.old at (number_text value) text.new result }
{
    put_digits(text, at, value, 16, width_of(value, 16))
}

pub fn put_decimal(text: &mut [u8], at: usize, value: usize) -> usize
    ensures { Puts text.old at (decimal_text value) text.new result }
{
    put_digits(text, at, value, 10, width_of(value, 10))
}
