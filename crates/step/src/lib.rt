// The step of an accepted packet: the reply from the state before it, then the input (01, "Packets").
#![tactic(auto)]

ghost use Rattle.std.specs.Prelude.{◌≡◌};
ghost use Rattle.board.specs.Setters.{with_fault};
ghost use Rattle.board.specs.State.{state_of};
ghost use Rattle.step.specs.Step.{reply_now, chain_during, chain_in, rejected, holding, released, left, plan_for, stepped};
ghost use Rattle.step.specs.StepMirror.{leaves_board, without_work};

use board::{Board, Chain, Phase, Place};
use command::{Base, Command, Source};
use plan::Plan;

// The board and the place after an accepted packet.
#[derive(Clone, Copy, Debug, PartialEq, Eq)]
pub struct Next {
    pub board: Board,
    pub place: Place,
}

#[tactic(auto, unfolding(crate::specs::Step::reply_now))]
pub fn reply_of(place: Place) -> u32
    ensures { result ≡ reply_now place }
{
    match place.phase {
        Phase::Rest | Phase::Upper(_) => place.next,
        Phase::Due(_, _, _) | Phase::Waiting(_, _, _, _) => command::NOT_READY,
    }
}

fn chain_during(command: Command, chain: Chain) -> Chain
    ensures { result ≡ chain_during command chain }
{
    match command {
        Command::Nop | Command::Load(_, Base::Pointer) | Command::Store(_, Base::Pointer) => chain,
        Command::Unknown
        | Command::Load(_, Base::Address)
        | Command::Store(_, Base::Address)
        | Command::Show(_)
        | Command::Change(_) => Chain::Off,
    }
}

fn chain_in(phase: Phase, chain: Chain) -> Chain
    ensures { result ≡ chain_in phase chain }
{
    match phase {
        Phase::Rest | Phase::Upper(_) => chain,
        Phase::Due(command, _, _) | Phase::Waiting(command, _, _, _) => {
            chain_during(command, chain)
        }
    }
}

pub fn hold(place: Place, phase: Phase) -> Place
    ensures { result ≡ holding place phase }
{
    board::set_place(
        place,
        phase,
        chain_in(phase, place.chain),
        place.pointer,
        command::NOT_READY,
    )
}

fn reject(place: Place) -> Place
    ensures { result ≡ rejected place }
{
    board::set_place(
        place,
        Phase::Rest,
        Chain::Off,
        place.pointer,
        command::ILLEGAL,
    )
}

pub fn release(place: Place, low: u16) -> Place
    ensures { result ≡ released place low }
{
    board::set_place(
        place,
        Phase::Rest,
        place.chain,
        place.pointer,
        u32::from(low),
    )
}

// What a packet leaves of the place where no command works.
pub fn settle_without_work(place: Place, plan: Plan) -> Place
    ensures { result ≡ without_work plan place }
{
    match plan {
        Plan::Hold(phase) => hold(place, phase),
        Plan::Reject => reject(place),
        Plan::Release(low) => release(place, low),
        Plan::Work(_, _, _) => place,
    }
}

// The board is large: a command that leaves it alone does not copy it.
fn leaves_board(command: Command) -> bool
    ensures { result ≡ leaves_board command }
{
    !matches!(command, Command::Show(Source::Csr) | Command::Change(_))
}

// The board with this fault for its own.
pub fn carry_out(
    board: Board,
    fault: Option<u32>,
    place: Place,
    memory: &mut [u8],
    plan: Plan,
) -> Next
    ensures { state_of result.board result.place memory.new ≡ left plan (state_of (with_fault board fault) place memory.old) }
{
    match plan {
        Plan::Work(command, address, value) => {
            let access = access::make_access(memory, command, place.pointer, address, value);
            let ending = work::find_ending(command, board, address, access);
            let settled = work::settle(command, place, access, ending);
            let kept = faults::after_work(ending, access, fault);
            if leaves_board(command) {
                return Next {
                    board: board::set_fault(board, kept),
                    place: settled,
                };
            }
            let worked = registers::board_after(command, board, address, value);
            Next {
                board: board::set_fault(worked, kept),
                place: settled,
            }
        }
        _ => Next {
            board: board::set_fault(board, fault),
            place: settle_without_work(place, plan),
        },
    }
}

#[tactic(auto, unfolding(crate::specs::Step::plan_for))]
pub fn plan_for(board: Board, place: Place, word: u32) -> Plan
    ensures { result ≡ plan_for board place word }
{
    plan::make_plan(place.phase, board::standing_of(board, place), board.w, word)
}

#[tactic(auto, unfolding(crate::specs::Step::stepped))]
pub fn take_word(board: Board, place: Place, memory: &mut [u8], word: u32) -> Next
    ensures { state_of result.board result.place memory.new ≡ stepped (state_of board place memory.old) word }
{
    let plan = plan_for(board, place, word);
    let fault = faults::after_word(place.phase, word, board.fault);
    carry_out(board, fault, place, memory, plan)
}
