// The page of `waits` (docs/waits.md): the lines of a file at every W, each held against W = 0.
#![tactic(auto)]

ghost use Rattle.std.specs.Prelude.{◌≡◌, length};
ghost use Rattle.text.specs.Text.{Puts};
ghost use Rattle.waits_setting.specs.WaitsSetting.{came_of, JudgedSo};
ghost use Rattle.waits_page.specs.WaitsPage.{settings, all_same, verdict_text, unclear_text, worked_in, WaitsMeets};

use parts::front;
use text::{put_byte, put_decimal, put_text};
use waits_lines::line_number;
use waits_run::run_at;
use waits_setting::{Judged, put_setting};

// Each W from 0 to 15.
fn put_settings(
    page: &mut [u8],
    at: usize,
    input: &[u8],
    due: &[u8],
    due_memory: &[u8],
    memory: &mut [u8],
    text: &mut [u8],
) -> Judged
    ensures { JudgedSo
        (settings 16 0 (came_of due.now due_memory.now) (length text.old) (length memory.old) input.now)
        (all_same 16 0 (came_of due.now due_memory.now) (length text.old) (length memory.old) input.now)
        page.old at result page.new
        × (came_of text.new memory.new
        ≡ worked_in 16 0 input.now (came_of text.old memory.old)) }
{
    let mut end = at;
    let mut same = true;
    for w in 0..16 {
        let ran = run_at(w, input, memory, text);
        let judged = put_setting(
            page,
            end,
            w,
            ran.packets,
            due,
            front(text, ran.end),
            due_memory,
            memory,
        );
        end = judged.end;
        same = same & judged.same;
    }
    Judged { end, same }
}

fn put_verdict(page: &mut [u8], at: usize, same: bool) -> usize
    ensures { Puts page.old at (verdict_text same) page.new result }
{
    if same {
        put_text(page, at, b"SAME\n")
    } else {
        put_text(page, at, b"DIFFERENT\n")
    }
}

fn put_unclear(page: &mut [u8], before: &[u8]) -> usize
    ensures { Puts page.old 0 (unclear_text before.now) page.new result }
{
    let at = put_text(page, 0, b"unclear line ");
    let at = put_decimal(page, at, line_number(before));
    put_byte(page, at, b'\n')
}

// The page of a file. The buffers are for memory and the lines at W = 0, and for those at each W.
pub fn put_page(
    page: &mut [u8],
    input: &[u8],
    due_memory: &mut [u8],
    due: &mut [u8],
    memory: &mut [u8],
    text: &mut [u8],
) -> usize
    ensures { WaitsMeets input.now page.old
        (came_of due.old due_memory.old) (came_of text.old memory.old)
        result page.new
        (came_of due.new due_memory.new) (came_of text.new memory.new) }
{
    if 16384 < input.len() {
        return put_text(page, 0, b"too long\n");
    }
    let first = run_at(0, input, due_memory, due);
    if first.taken {
        let lines = front(due, first.end);
        let at = put_text(page, 0, lines);
        let judged = put_settings(page, at, input, lines, due_memory, memory, text);
        put_verdict(page, judged.end, judged.same)
    } else {
        put_unclear(page, front(input, first.stray))
    }
}
