// The morning's check: P1 to P9 of document 01, which the desk checks by eye, each with what came out and whether it is what is due.
#![tactic(auto)]

ghost use Rattle.text.specs.Text.{Puts};
ghost use Rattle.answers.specs.Bench.{left};
ghost use Rattle.morning_page.specs.MorningPage.{page_text, JudgedSo};
ghost use Rattle.morning.specs.Morning.{p9, later, boards, checks_of, first, nine, unjudged, PagedSo};

use morning_page::{Judged, put_check, put_verdict};
use script::check;
use scripts::Checked;

// P5 to P8, on the bench as P1 to P4 leave it.
fn check_later(before: Checked, memory: &mut [u8], page: &mut [u8]) -> Checked
    ensures { PagedSo 5 (checks_of later (left before.bench memory.old)) before page.old result page.new }
{
    let five = check(
        5,
        b"two levels, the same event twice, CSR after each",
        b"-make 0\n\
          -wdmreg 8 1000\n\
          -wdmreg D 2000\n\
          -wdmreg 6 5\n\
          -wdmreg 7 20042002\n\
          -go\n\
          +event 1000 2000 5 0\n\
          +rdmreg 0\n\
          +event 1000 2000 5 0\n\
          +rdmreg 0\n",
        b"event level 1 halted 0 interrupt 0 pc none, value 50100000 packets 3, \
          event level 2 halted 0 interrupt 0 pc none, value 60100000 packets 3",
        before,
        memory,
        page,
    );
    let six = check(
        6,
        b"byte READ at 0 without memory",
        b"-make 0\n\
          -memory 0\n\
          +packet 1900\n\
          +packet 0\n\
          +packet 0\n\
          +packet 0\n",
        b"reply 0FFFF, reply 10000, reply 10000, reply 10001",
        five,
        memory,
        page,
    );
    let seven = check(
        7,
        b"FILL after READ",
        b"-make 0\n\
          -memory 10\n\
          +packet 1900\n\
          +packet 0\n\
          +packet 0\n\
          +packet 1C00\n\
          +packet 0\n",
        b"reply 0FFFF, reply 10000, reply 10000, reply 00000, reply 1FFFF",
        six,
        memory,
        page,
    );
    let eight = check(
        8,
        b"the word 19C0",
        b"-make 0\n\
          +packet 19C0\n\
          +packet 0\n",
        b"reply 0FFFF, reply 1FFFF",
        seven,
        memory,
        page,
    );
    eight
}

// P1 to P8, one bench for all.
fn check_boards(memory: &mut [u8], page: &mut [u8]) -> Checked
    ensures { PagedSo 1 (checks_of boards (left first memory.old)) (unjudged first) page.old result page.new }
{
    let bench = answers::opened();
    let none = Checked {
        bench: bench,
        end: 0,
        bad: 9,
    };
    let one = check(
        1,
        b"READ of the longword at 4, with W 1",
        b"-make 1\n\
          -memory 10\n\
          -bytes 0 000102030405060708090A0B0C0D0E0F\n\
          +packet 1980\n\
          +packet 0\n\
          +packet 4\n\
          +packet 0\n\
          +packet 0\n\
          +packet 0\n",
        b"reply 0FFFF, reply 10000, reply 10000, reply 10000, reply 00405, reply 00607",
        none,
        memory,
        page,
    );
    let two = check(
        2,
        b"then DUMP of a byte",
        b"+packet 1D00\n\
          +packet 0\n\
          +packet 0\n",
        b"reply 0FFFF, reply 10000, reply 00008",
        one,
        memory,
        page,
    );
    let three = check(
        3,
        b"CSR of a fresh board, read twice",
        b"-make 0\n\
          +rdmreg 0\n\
          +rdmreg 0\n",
        b"value 01100000 packets 3, value 00100000 packets 3",
        two,
        memory,
        page,
    );
    let four = check(
        4,
        b"PC breakpoint at 1000 under mask F: at 1010, at 100E, then CSR",
        b"-make 0\n\
          -wdmreg 8 1000\n\
          -wdmreg 9 F\n\
          -wdmreg 7 40002002\n\
          -go\n\
          +event 1010\n\
          +event 100E\n\
          +rdmreg 0\n",
        b"event level 0 halted 0 interrupt 0 pc none, event level 1 halted 1 interrupt 0 pc none, value 24100000 packets 3",
        three,
        memory,
        page,
    );
    check_later(four, memory, page)
}

// P9.
fn check_listing(page: &mut [u8], at: usize, bad: u32) -> Judged
    ensures { JudgedSo 9 p9 bad page.old at result page.new }
{
    let mut words = [0u32; 36];
    let mut text = [0u8; 4096];
    let end = listed::put_listing(
        b"\x10\x50\x90\x04\x03\x02\x11\xF0\xF0",
        &mut words,
        &mut text,
    );
    put_check(
        page,
        at,
        9,
        b"the trace 10 50 90 04 03 02 11 F0 F0",
        b"trace cycles=9 items=5, 0 1 0, 1 5 0, 6 9 4660, 6 1 0, 7 15 0",
        &text[..end],
        bad,
    )
}

// The whole page, and where it ends.
fn check_all(memory: &mut [u8], page: &mut [u8]) -> usize
    ensures { Puts page.old 0 (page_text (nine memory.old)) page.new result }
{
    let checked = check_boards(memory, page);
    let judged = check_listing(page, checked.end, checked.bad);
    put_verdict(page, judged.end, judged.bad)
}

fn main(rt: HostRuntime) {
    let mut memory = [0u8; 65552];
    let mut page = [0u8; 65536];
    let end = check_all(&mut memory, &mut page);
    console::write(rt.stdout(), &page, end);
}
