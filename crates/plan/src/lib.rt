// What a packet's input is taken for: a command word, an operand, or nothing (01, "Packets").
#![tactic(auto)]

ghost use Rattle.std.specs.Prelude.{◌≡◌};
ghost use Rattle.plan.specs.Plan.{long, with_operand, address_in, value_in};
ghost use Rattle.plan.specs.Plan.{work_after, waits_of, collected, begun, continued, plan_of};

use board::{Operands, Phase, Standing};
use command::Command;

#[derive(Clone, Copy, Debug, PartialEq, Eq)]
pub enum Plan {
    // Operands or waits are still to come.
    Hold(Phase),
    // Illegal, or dropped.
    Reject,
    // The upper result word leaves: the low one is next.
    Release(u16),
    // The command, its address and its data.
    Work(Command, u32, u32),
}

fn join(upper: u16, low: u16) -> u32
    ensures { result ≡ long upper low }
{
    u32::from(upper) * 65536 + u32::from(low)
}

pub fn take_operand(taken: Operands, word: u16) -> Operands
    ensures { result ≡ with_operand taken word }
{
    Operands {
        oldest: taken.older,
        older: taken.newer,
        newer: taken.newest,
        newest: word,
    }
}

fn address_in(n: u32, taken: Operands) -> u32
    ensures { result ≡ address_in n taken }
{
    match n {
        4 => join(taken.oldest, taken.older),
        3 => join(taken.older, taken.newer),
        _ => join(taken.newer, taken.newest),
    }
}

fn value_in(n: u32, taken: Operands) -> u32
    ensures { result ≡ value_in n taken }
{
    match n {
        1 | 3 => u32::from(taken.newest),
        _ => join(taken.newer, taken.newest),
    }
}

#[tactic(auto, unfolding(crate::specs::Plan::work_after))]
fn wait_or_work(left: u32, command: Command, address: u32, value: u32) -> Plan
    ensures { result ≡ work_after left command address value }
{
    match left {
        0 => Plan::Work(command, address, value),
        _ => Plan::Hold(Phase::Waiting(command, left, address, value)),
    }
}

fn waits_of(w: u32, command: Command) -> u32
    ensures { result ≡ waits_of w command }
{
    if command::does_wait(command) { w } else { 0 }
}

#[tactic(auto, unfolding(crate::specs::Plan::collected))]
fn collect(w: u32, left: u32, command: Command, taken: Operands) -> Plan
    ensures { result ≡ collected w left command taken }
{
    if left != 0 {
        return Plan::Hold(Phase::Due(command, left, taken));
    }
    let n = command::operand_count(command);
    wait_or_work(
        waits_of(w, command),
        command,
        address_in(n, taken),
        value_in(n, taken),
    )
}

#[tactic(auto, unfolding(crate::specs::Plan::begun))]
fn begin(standing: Standing, w: u32, word: u32) -> Plan
    ensures { result ≡ begun standing w word }
{
    if 0x10000 <= word {
        return Plan::Reject;
    }
    let command = command::decode(word);
    if !legality::is_legal(command, standing) {
        return Plan::Reject;
    }
    collect(
        w,
        command::operand_count(command),
        command,
        Operands::default(),
    )
}

#[tactic(auto, unfolding(crate::specs::Plan::continued))]
fn go_on(command: Command, left: u32, taken: Operands, w: u32, word: u32) -> Plan
    ensures { result ≡ continued command left taken w word }
{
    let Ok(operand) = u16::try_from(word) else {
        return Plan::Reject;
    };
    collect(
        w,
        left.saturating_sub(1),
        command,
        take_operand(taken, operand),
    )
}

pub fn make_plan(phase: Phase, standing: Standing, w: u32, word: u32) -> Plan
    ensures { result ≡ plan_of phase standing w word }
{
    match phase {
        Phase::Rest => begin(standing, w, word),
        Phase::Due(command, left, taken) => go_on(command, left, taken, w, word),
        Phase::Waiting(command, left, address, value) => {
            wait_or_work(left.saturating_sub(1), command, address, value)
        }
        Phase::Upper(low) => Plan::Release(low),
    }
}
