// The page that is read by eye: each check with what came out, and last how many were bad.
#![tactic(auto)]

ghost use Rattle.text.specs.Text.{Puts};
ghost use Rattle.morning_page.specs.MorningPage.{check_of, under_text, judged_text, verdict_text, JudgedSo};

use same::is_same;
use text::{put_byte, put_decimal, put_text};

fn put_under(text: &mut [u8], at: usize, verdict: &[u8], title: &[u8], came: &[u8]) -> usize
    ensures { Puts text.old at (under_text verdict.now title.now came.now) text.new result }
{
    let at = put_text(text, at, verdict);
    let at = put_text(text, at, title);
    let at = put_text(text, at, b"\n    ");
    let at = put_text(text, at, came);
    put_byte(text, at, b'\n')
}

fn put_judged(
    text: &mut [u8],
    at: usize,
    good: bool,
    title: &[u8],
    due: &[u8],
    came: &[u8],
) -> usize
    ensures { Puts text.old at (judged_text good (check_of title.now due.now came.now))
        text.new result }
{
    if good {
        return put_under(text, at, b" good: ", title, came);
    }
    let at = put_under(text, at, b" BAD: ", title, came);
    let at = put_text(text, at, b"    due: ");
    let at = put_text(text, at, due);
    put_byte(text, at, b'\n')
}

// Where the page goes on, and how many are bad with this check.
#[derive(Clone, Copy, Debug, PartialEq, Eq)]
pub struct Judged {
    pub end: usize,
    pub bad: u32,
}

// A check's lines; good is what came out as it is due, and nothing else.
pub fn put_check(
    text: &mut [u8],
    at: usize,
    number: u32,
    title: &[u8],
    due: &[u8],
    came: &[u8],
    bad: u32,
) -> Judged
    ensures { JudgedSo number (check_of title.now due.now came.now) bad text.old at result text.new }
{
    let at = put_byte(text, at, b'P');
    let at = put_decimal(text, at, number as usize);
    let good = is_same(came, due);
    let end = put_judged(text, at, good, title, due, came);
    let bad = if good { bad.saturating_sub(1) } else { bad };
    Judged { end, bad }
}

const GOOD_LETTERS: &[u8] = b"
 ####   ###    ###   ####
#      #   #  #   #  #   #
#  ##  #   #  #   #  #   #
#   #  #   #  #   #  #   #
 ####   ###    ###   ####

";

const BAD_LETTERS: &[u8] = b"
####    ###   ####
#   #  #   #  #   #
####   #####  #   #
#   #  #   #  #   #
####   #   #  ####

";

// Big letters, and a last line, where so many of nine are bad. A check that was never judged is bad.
pub fn put_verdict(text: &mut [u8], at: usize, bad: u32) -> usize
    ensures { Puts text.old at (verdict_text bad) text.new result }
{
    if bad == 0 {
        let at = put_text(text, at, GOOD_LETTERS);
        return put_text(text, at, b"ALL 9 GOOD\n");
    }
    let at = put_text(text, at, BAD_LETTERS);
    let at = put_decimal(text, at, bad as usize);
    put_text(text, at, b" BAD OF 9: HAND OUT NO POD\n")
}
