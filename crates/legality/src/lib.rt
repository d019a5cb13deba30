// Which command is legal (01, "Packets").
#![tactic(auto)]

ghost use Rattle.std.specs.Prelude.{◌≡◌};
ghost use Rattle.legality.specs.Legality.{is_dumping, is_filling, follows, legal_command};

use board::{Chain, Standing};
use command::{Base, Command};

fn is_dumping(chain: Chain) -> bool
    ensures { result ≡ is_dumping chain }
{
    chain == Chain::Dumping
}

fn is_filling(chain: Chain) -> bool
    ensures { result ≡ is_filling chain }
{
    chain == Chain::Filling
}

fn may_follow(command: Command, chain: Chain) -> bool
    ensures { result ≡ follows command chain }
{
    match command {
        Command::Unknown => false,
        Command::Load(_, Base::Pointer) => is_dumping(chain),
        Command::Store(_, Base::Pointer) => is_filling(chain),
        Command::Nop
        | Command::Load(_, Base::Address)
        | Command::Store(_, Base::Address)
        | Command::Show(_)
        | Command::Change(_) => true,
    }
}

pub fn is_legal(command: Command, standing: Standing) -> bool
    ensures { result ≡ legal_command command standing }
{
    (standing.halted || !command::needs_halted(command)) && may_follow(command, standing.chain)
}
