//! Why the words after a verb are not read.
ghost use Rattle.std.specs.Prelude.{◌≡◌};
ghost use Rattle.script.specs.Calls.{fault_of};
ghost use Rattle.script.specs.declared.misread.Misread.TheVariants as misread;

use crate::unreadable::Unreadable;
use crate::verb::Verb;
use std::alloc::AllocError;

/// Why words are not read; which verb stands before them is not yet said.
#[derive(Clone, Copy, PartialEq, Eq, Debug)]
pub(crate) enum Misread {
    /// They are written otherwise.
    Form,
    /// There is no memory for what they say.
    Memory,
}

impl Misread {
    /// Why the line is no call, for words after this verb.
    pub(crate) fn after(self, verb: Verb) -> Unreadable
        ensures { result ≡ fault_of verb self }
    {
        match self {
            Misread::Form => Unreadable::Form(verb),
            Misread::Memory => Unreadable::Memory,
        }
    }
}

impl From<AllocError> for Misread {
    ghost from_gives = { λ _ e. e ≡ misread.Memory };

    fn from(_error: AllocError) -> Misread {
        Misread::Memory
    }
}
