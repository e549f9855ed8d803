//! How many lines came to what.
ghost use Rattle.std.specs.Prelude.{◌≡◌, Some};
ghost use Rattle.session.specs.Tallies.{counted, called};
ghost use Rattle.session.specs.Texts.{shown_tally};

use crate::answer::Answer;
use std::fmt;

/// How many calls were accepted and refused, and how many lines were no call.
#[derive(Clone, Copy, PartialEq, Eq, Debug, Default)]
pub struct Tally {
    pub accepted: u64,
    pub refused: u64,
    pub unreadable: u64,
}

impl Tally {
    /// The tally with one answer more.
    pub(crate) fn count(self, answer: &Answer) -> Tally
        ensures { result ≡ counted answer.now self }
    {
        match answer {
            Answer::Accepted(_) => Tally {
                accepted: self.accepted.saturating_add(1),
                ..self
            },
            Answer::Refused(_) => Tally {
                refused: self.refused.saturating_add(1),
                ..self
            },
            Answer::Unreadable(_) => Tally {
                unreadable: self.unreadable.saturating_add(1),
                ..self
            },
        }
    }

    /// How many calls there were: a line that is no call is none.
    pub fn calls(self) -> u64
        ensures { result ≡ called self }
    {
        self.accepted.saturating_add(self.refused)
    }
}

/// The line of an account: how many calls there were, what became of them, and how many lines were no call.
impl fmt::Display for Tally {
    ghost output = { λ t. Some (shown_tally t) };

    fn fmt<W: fmt::Write>(&self, f: &mut fmt::Formatter<W>) -> fmt::Result {
        let Tally {
            accepted,
            refused,
            unreadable,
        } = *self;
        let calls = self.calls();
        write!(
            f,
            "account: {calls} calls, {accepted} accepted, {refused} refused; {unreadable} lines unreadable"
        )
    }
}
