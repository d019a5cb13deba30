// Which address was not there (request [4]): the number that the board keeps.
#![tactic(auto)]

ghost use Rattle.std.specs.Prelude.{◌≡◌};
ghost use Rattle.plan.specs.Plan.{taken_for};
ghost use Rattle.faults.specs.Fault.{fault_taken, fault_of, fault_after};

use access::Access;
use board::Phase;
use work::Ending;

// A command word other than NOP clears it; an operand and an ignored input leave it.
pub fn after_word(phase: Phase, word: u32, fault: Option<u32>) -> Option<u32>
    ensures { result ≡ fault_taken (taken_for phase) word fault }
{
    match phase {
        Phase::Rest if word != 0 => None,
        _ => fault,
    }
}

fn of_bus_error(access: Access, fault: Option<u32>) -> Option<u32>
    ensures { result ≡ fault_of access fault }
{
    match access {
        // A control register: its error keeps none.
        Access::NoAccess => fault,
        Access::Fetched(_, _, _) | Access::Stored(_) => fault,
        Access::Missing(first) => Some(first),
    }
}

pub fn after_work(ending: Ending, access: Access, fault: Option<u32>) -> Option<u32>
    ensures { result ≡ fault_after ending access fault }
{
    match ending {
        Ending::Failed => of_bus_error(access, fault),
        Ending::Complete | Ending::OneWord(_) | Ending::TwoWords(_) => fault,
    }
}
