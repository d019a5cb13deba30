// What a firing and the breakpoint input give, and what they leave of the status (01, "Events and firing").
#![tactic(auto)]

ghost use Rattle.std.specs.Prelude.{◌≡◌};
ghost use Rattle.firing.specs.Firing.{bstat_after, responds, firing_of, firing, ssm, halt_of, halted, captured, seen, status_after};
ghost use Rattle.firing.specs.Breakpoint.{bkd, pressed, status_pressed};

use board::Status;
use halting::Halting;
use trigger::Event;

// The level fired or 0, BSTAT after it, and the response that comes with it.
#[derive(Clone, Copy, Debug, PartialEq, Eq)]
pub struct Firing {
    pub level: u32,
    pub bstat: u32,
    pub halts: bool,
    pub interrupts: bool,
}

// What an event that is taken is answered.
#[derive(Clone, Copy, Debug, PartialEq, Eq)]
pub struct Seen {
    pub level: u32,
    pub halted: bool,
    pub interrupt: bool,
    pub captured: Option<u32>,
    pub halting: Halting,
}

// What the breakpoint input is answered.
#[derive(Clone, Copy, Debug, PartialEq, Eq)]
pub struct Pressed {
    pub halted: bool,
    pub interrupt: bool,
}

#[tactic(auto, unfolding(crate::specs::Firing::bstat_after))]
fn bstat_after(level: u32, tdr: u32, bstat: u32) -> u32
    ensures { result ≡ bstat_after level tdr bstat }
{
    match level {
        1 if trigger::levels::level_two(tdr).ebl => 5,
        1 => 2,
        2 => 6,
        _ => bstat,
    }
}

#[tactic(auto, unfolding(crate::specs::Firing::responds))]
fn is_response(level: u32, after: u32) -> bool
    ensures { result ≡ responds level after }
{
    level != 0 && (after == 2 || after == 6)
}

fn firing_of(level: u32, tdr: u32, bstat: u32) -> Firing
    ensures { result ≡ firing_of level tdr bstat }
{
    let after = bstat_after(level, tdr, bstat);
    let comes = is_response(level, after);
    let response = tdr / 0x40000000 % 4;
    Firing {
        level,
        bstat: after,
        halts: comes && response == 1,
        interrupts: comes && response == 2,
    }
}

#[tactic(auto, unfolding(crate::specs::Firing::firing))]
pub fn fire(status: Status, debug: board::Debug, event: Event) -> Firing
    ensures { result ≡ firing status debug event }
{
    let level = trigger::fired_level(status.bstat, debug, event);
    firing_of(level, debug.tdr, status.bstat)
}

fn is_ssm(debug: board::Debug) -> bool
    ensures { result ≡ ssm debug }
{
    debug.csr / 0x10 % 2 == 1
}

fn judge_halt(debug: board::Debug, event: Event) -> Halting
    ensures { result ≡ halt_of debug event }
{
    halting::judge(event.mark, debug.csr / 0x400 % 2 == 1)
}

fn is_halted(debug: board::Debug, event: Event, fired: Firing) -> bool
    ensures { result ≡ halted debug event fired }
{
    fired.halts || is_ssm(debug) || halting::is_halting(judge_halt(debug, event))
}

fn capture(sync: bool, pc: u32) -> Option<u32>
    ensures { result ≡ captured sync pc }
{
    sync.then_some(pc)
}

#[tactic(auto, unfolding(crate::specs::Firing::seen))]
pub fn see(status: Status, debug: board::Debug, event: Event, fired: Firing) -> Seen
    ensures { result ≡ seen status debug event fired }
{
    Seen {
        level: fired.level,
        halted: is_halted(debug, event, fired),
        interrupt: fired.interrupts,
        captured: capture(status.sync, event.pc),
        halting: judge_halt(debug, event),
    }
}

#[tactic(auto, unfolding(crate::specs::Firing::status_after))]
pub fn status_after(status: Status, debug: board::Debug, event: Event, fired: Firing) -> Status
    ensures { result ≡ status_after status debug event fired }
{
    let itself = halting::is_halting(judge_halt(debug, event));
    Status {
        halted: is_halted(debug, event, fired),
        trg: status.trg || fired.halts,
        halt: status.halt || itself,
        bstat: fired.bstat,
        sync: false,
        ..status
    }
}

fn is_bkd(debug: board::Debug) -> bool
    ensures { result ≡ bkd debug }
{
    debug.csr / 0x40000 % 2 == 1
}

#[tactic(auto, unfolding(crate::specs::Breakpoint::pressed))]
pub fn press(status: Status, debug: board::Debug) -> Pressed
    ensures { result ≡ pressed status debug }
{
    let disabled = is_bkd(debug);
    Pressed {
        halted: !status.halted && !disabled,
        interrupt: !status.halted && disabled,
    }
}

#[tactic(auto, unfolding(crate::specs::Breakpoint::status_pressed))]
pub fn status_pressed(status: Status, press: Pressed) -> Status
    ensures { result ≡ status_pressed status press }
{
    Status {
        halted: status.halted || press.halted,
        bkpt: status.bkpt || press.halted,
        ..status
    }
}
