// Programs that halt themselves (request [6]): the mark of an event, and what becomes of it.
#![tactic(auto)]

ghost use Rattle.std.specs.Prelude.{◌≡◌};
ghost use Rattle.halting.specs.Halting.{allowed, halt_at, halting, halts_itself};

// What an instruction runs at.
#[derive(Clone, Copy, Debug, PartialEq, Eq)]
pub enum Privilege {
    User,
    Supervisor,
}

// What becomes of it: there is no HALT, it halts the processor, or it halts nothing.
#[derive(Clone, Copy, Debug, PartialEq, Eq)]
pub enum Halting {
    NoHalt,
    Halts,
    Ignored,
}

fn is_allowed(privilege: Privilege, uhe: bool) -> bool
    ensures { result ≡ allowed privilege uhe }
{
    privilege == Privilege::Supervisor || uhe
}

fn halt_at(privilege: Privilege, uhe: bool) -> Halting
    ensures { result ≡ halt_at privilege uhe }
{
    if is_allowed(privilege, uhe) {
        Halting::Halts
    } else {
        Halting::Ignored
    }
}

#[tactic(auto, unfolding(crate::specs::Halting::halting))]
pub fn judge(mark: Option<Privilege>, uhe: bool) -> Halting
    ensures { result ≡ halting mark uhe }
{
    match mark {
        None => Halting::NoHalt,
        Some(privilege) => halt_at(privilege, uhe),
    }
}

pub fn is_halting(halting: Halting) -> bool
    ensures { result ≡ halts_itself halting }
{
    halting == Halting::Halts
}
