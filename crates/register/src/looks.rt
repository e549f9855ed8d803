//! Looking things up in a register. Lists go by rising number: each number leads to the next.
ghost use Rattle.std.specs.Prelude.{◌≡◌, ℕ, ◌<◌, ◌≤◌, Some, Decides, MatchOption};
ghost use Rattle.curve.specs.Curves.{points};
ghost use Rattle.rules.specs.Registers.{in_force};
ghost use Rattle.register.specs.Looking.{InForce, Withdrawn, Next, Lowest};
ghost use Rattle.register.specs.Meaning.{meaning};

use crate::LAST;
use crate::register::Core;
use curve::Curve;

impl Core {
    /// The station number.
    pub fn station(&self) -> u16
        ensures { result ≡ (meaning self.now).station }
    {
        self.station
    }

    /// How many seals were accepted.
    pub fn serial(&self) -> u32
        ensures { result ≡ (meaning self.now).serial }
    {
        self.serial
    }

    /// Whether a number is withdrawn.
    pub fn is_withdrawn(&self, number: u16) -> bool
        ensures { Decides result (Withdrawn (meaning self.now) number) }
    {
        self.withdrawn
            .get(usize::from(number))
            .copied()
            .unwrap_or(false)
    }

    /// Whether a curve is in force with a number.
    pub fn is_in_force(&self, number: u16) -> bool
        ensures { Decides result (InForce (meaning self.now) number) }
    {
        self.table.has(number)
    }

    /// The curve in force with a number, if there is one.
    pub fn points(&self, number: u16) -> Option<Curve<'_>>
        ensures { MatchOption result (InForce (meaning self.now) number → ⊥) (λ c. (meaning self.now).standing number ≡ Some (in_force (points c.stages.now c.flows.now))) }
    {
        let i = self.table.find(number)?;
        Some(self.table.places[i].curve())
    }

    /// The lowest number in force above a given one.
    pub fn next_in_force(&self, after: u16) -> Option<u16>
        ensures { Next (InForce (meaning self.now)) after result }
    {
        lowest_above(after, |n| self.is_in_force(n))
    }

    /// The lowest withdrawn number above a given one.
    pub fn next_withdrawn(&self, after: u16) -> Option<u16>
        ensures { Next (Withdrawn (meaning self.now)) after result }
    {
        lowest_above(after, |n| self.is_withdrawn(n))
    }
}

/// The lowest number that a curve can have, above a given one, that a test passes.
fn lowest_above<F: Fn(u16) -> bool>(after: u16, test: F) -> Option<u16>
    requires { F.IsAlwaysCallable test }
    ensures { Lowest (F.post test) after result }
{
    (after.saturating_add(1)..LAST + 1).find(|n| test(*n))
}
