// What a command does once its last word is in and its waits are over (01, "Packets").
#![tactic(auto)]

ghost use Rattle.std.specs.Prelude.{◌≡◌};
ghost use Rattle.work.specs.WorkMirror.{value_ending};
ghost use Rattle.work.specs.Work.{access_ending, change_ending, ending_of, first_reply, phase_after, chain_by, chain_after, place_after};

use access::Access;
use board::{Board, Chain, Phase, Place};
use command::{Base, Command, Source, Target};
use memory::Size;

// What a command's work ends in.
#[derive(Clone, Copy, Debug, PartialEq, Eq)]
pub enum Ending {
    Complete,
    Failed,
    OneWord(u32),
    TwoWords(u32),
}

// A value goes out in as many words as the command's line of the table says.
fn end_value(command: Command, found: Option<u32>) -> Ending
    ensures { result ≡ value_ending command found }
{
    match found {
        Some(value) => {
            if command::result_count(command) == 1 {
                return Ending::OneWord(value);
            }
            Ending::TwoWords(value)
        }
        None => Ending::Failed,
    }
}

fn end_access(access: Access) -> Ending
    ensures { result ≡ access_ending access }
{
    match access {
        Access::NoAccess | Access::Stored(_) => Ending::Complete,
        // An arm for each size, so that the compiler knows the count.
        Access::Fetched(size, value, _) => {
            let found = Some(value);
            match size {
                Size::Byte => end_value(Command::Load(Size::Byte, Base::Address), found),
                Size::Word => end_value(Command::Load(Size::Word, Base::Address), found),
                Size::Long => end_value(Command::Load(Size::Long, Base::Address), found),
            }
        }
        Access::Missing(_) => Ending::Failed,
    }
}

fn end_change(reached: bool) -> Ending
    ensures { result ≡ change_ending reached }
{
    if reached {
        Ending::Complete
    } else {
        Ending::Failed
    }
}

pub fn find_ending(command: Command, board: Board, address: u32, access: Access) -> Ending
    ensures { result ≡ ending_of command board address access }
{
    match command {
        Command::Load(_, _) | Command::Store(_, _) => end_access(access),
        Command::Show(Source::General(n)) => {
            let value = control::general_of(board, u32::from(n));
            end_value(command, Some(value))
        }
        Command::Show(Source::Control) => {
            end_value(command, control::fetch_control(board, address))
        }
        Command::Show(Source::Csr) => end_value(command, Some(csr::csr_of(board))),
        Command::Change(Target::Control) => end_change(control::is_listed(address)),
        Command::Unknown
        | Command::Nop
        | Command::Change(Target::General(_) | Target::Debug(_) | Target::Run | Target::Sync) =>
            Ending::Complete,
    }
}

fn first_reply(ending: Ending) -> u32
    ensures { result ≡ first_reply ending }
{
    match ending {
        Ending::Complete => command::COMPLETE,
        Ending::Failed => command::BUS_ERROR,
        Ending::OneWord(value) => value,
        Ending::TwoWords(value) => value / 65536,
    }
}

fn phase_after(ending: Ending) -> Phase
    ensures { result ≡ phase_after ending }
{
    match ending {
        Ending::Complete | Ending::Failed | Ending::OneWord(_) => Phase::Rest,
        Ending::TwoWords(value) => Phase::Upper((value % 65536) as u16),
    }
}

fn chain_by(command: Command, chain: Chain) -> Chain
    ensures { result ≡ chain_by command chain }
{
    match command {
        Command::Nop => chain,
        Command::Load(_, _) => Chain::Dumping,
        Command::Store(_, _) => Chain::Filling,
        Command::Unknown | Command::Show(_) | Command::Change(_) => Chain::Off,
    }
}

fn chain_after(ending: Ending, command: Command, chain: Chain) -> Chain
    ensures { result ≡ chain_after ending command chain }
{
    match ending {
        Ending::Failed => Chain::Off,
        Ending::Complete | Ending::OneWord(_) | Ending::TwoWords(_) => chain_by(command, chain),
    }
}

pub fn settle(command: Command, place: Place, access: Access, ending: Ending) -> Place
    ensures { result ≡ place_after command place access ending }
{
    board::set_place(
        place,
        phase_after(ending),
        chain_after(ending, command, place.chain),
        access::pointer_after(access, place.pointer),
        first_reply(ending),
    )
}
