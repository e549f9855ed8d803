//! Why a call is not accepted.
ghost use Rattle.std.specs.Prelude.{◌≡◌};
ghost use Rattle.script.specs.declared.unreadable.Unreadable.TheVariants.{Memory};
ghost use Rattle.session.specs.declared.fault.Fault.TheVariants as fault;

use refusal::Refusal;
use script::Unreadable;
use std::alloc::AllocError;

/// Why a call is not accepted: it is refused, or the line is no call.
#[derive(Clone, Copy, PartialEq, Eq, Debug)]
pub(crate) enum Fault {
    Refused(Refusal),
    Unreadable(Unreadable),
}

impl From<Refusal> for Fault {
    ghost from_gives = { λ e f. f ≡ fault.Refused e };

    fn from(refusal: Refusal) -> Fault {
        Fault::Refused(refusal)
    }
}

impl From<Unreadable> for Fault {
    ghost from_gives = { λ u f. f ≡ fault.Unreadable u };

    fn from(why: Unreadable) -> Fault {
        Fault::Unreadable(why)
    }
}

impl From<AllocError> for Fault {
    ghost from_gives = { λ _ f. f ≡ fault.Unreadable Memory };

    fn from(_error: AllocError) -> Fault {
        Fault::Unreadable(Unreadable::Memory)
    }
}
