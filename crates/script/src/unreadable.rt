//! Why a line is no call.
ghost use Rattle.std.specs.Prelude.{◌≡◌, Some};
ghost use Rattle.script.specs.Reasons.{why_of};

use crate::verb::Verb;
use std::fmt;

/// Why a line is not carried out: it is no call, or names what is not there.
#[derive(Clone, Copy, PartialEq, Eq, Debug)]
pub enum Unreadable {
    /// No call begins with the line's first word.
    UnknownVerb,
    /// A call of this verb is written otherwise.
    Form(Verb),
    /// No cipher has the name.
    UnknownName,
    /// A cipher has the name already.
    NameTaken,
    /// A triple stands where a keyed cipher is wanted.
    NotKeyed,
    /// There is no memory for the call.
    Memory,
}

impl Unreadable {
    /// The reason in plain words.
    pub fn why(self) -> &'static str
        ensures { result.now ≡ why_of self }
    {
        match self {
            Unreadable::UnknownVerb => "no call begins so",
            Unreadable::Form(verb) => verb.usage(),
            Unreadable::UnknownName => "no cipher has the name",
            Unreadable::NameTaken => "the name is taken",
            Unreadable::NotKeyed => "a triple takes no key and is no part of another",
            Unreadable::Memory => "no memory",
        }
    }
}

impl fmt::Display for Unreadable {
    ghost output = { λ u. Some (why_of u) };

    fn fmt<W: fmt::Write>(&self, f: &mut fmt::Formatter<W>) -> fmt::Result {
        f.write_str(self.why())
    }
}
