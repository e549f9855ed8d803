//! A session: the lines of one script, from the first on.
ghost use Rattle.std.specs.Prelude.{◌≡◌, ◌<◌, ◌≤◌, [], length, MatchOption};
ghost use Rattle.script.specs.Words.{words};
ghost use Rattle.session.specs.Lines.{Heeded, none};
ghost use Rattle.session.specs.State.{kinds, Shown};
ghost use Rattle.session.specs.Views.{standing, to_come};

use crate::answer::Answer;
use crate::ciphers::Ciphers;
use crate::standing::Standing;
use crate::tally::Tally;
use chosen::Kind;
use std::alloc::Global;

/// What a script has come to so far.
#[derive(Drop)]
pub struct Session {
    ciphers: Ciphers,
    tally: Tally,
}

impl Session {
    /// No line as yet: no name stands for anything, and nothing is counted.
    pub fn new(heap: Global) -> Session
        ensures standing { standing result.ciphers ≡ [] }
        ensures tally { result.tally ≡ none }
    {
        Session {
            ciphers: Ciphers::new(heap),
            tally: Tally::default(),
        }
    }

    /// Heeds a line: carries out the call that it says. A line without words is passed over.
    pub fn line(&mut self, line: &[u8]) -> Option<Answer>
        ensures { Heeded (words line.now) (standing self.old.ciphers) self.old.tally result (standing self.new.ciphers) self.new.tally }
    {
        let answer = self.ciphers.heed(line)?;
        self.tally = self.tally.count(&answer);
        Some(answer)
    }

    /// How many lines came to what.
    pub fn tally(&self) -> &Tally
        ensures { result.now ≡ self.now.tally }
    {
        &self.tally
    }

    /// The i-th name that was given, and the kind of cipher that it stands for; none past the last.
    pub fn cipher(&self, i: usize) -> Option<(&[u8], Kind)>
        ensures { MatchOption result (length (standing self.now.ciphers) ≤ i) (λ x. (i < length (standing self.now.ciphers)) × Shown (standing self.now.ciphers) i x.0.now x.1) }
    {
        self.ciphers.entry(i)
    }

    /// Each name that was given, and the kind of cipher that it stands for, in the order in which they were given.
    pub fn ciphers(&self) -> Standing<'_>
        ensures { to_come result ≡ kinds (standing self.now.ciphers) }
    {
        self.ciphers.standing()
    }
}
