//! What is asked of a number before a call looks further.
ghost use Rattle.std.specs.Prelude.{◌≡◌, MatchResult};
ghost use Rattle.refusal.specs.Refusals.{number_of, Answers};
ghost use Rattle.rules.specs.Calls as rule;
ghost use Rattle.rules.specs.Registers.{Number};
ghost use Rattle.register.specs.Causes.{Unmarked, Stopped};
ghost use Rattle.register.specs.Meaning.{meaning};

use crate::LAST;
use crate::register::Core;
use refusal::Refusal;

/// Whether a number is one that a curve can have: 1.
pub(crate) fn known(number: u16) -> Result<(), Refusal>
    ensures { Answers result (λ _. Number number) (λ n. (n ≡ 1) × (Number number → ⊥)) }
{
    if !(1..=LAST).contains(&number) {
        return Err(Refusal::NumberOutOfRange);
    }
    Ok(())
}

impl Core {
    /// Whether a number is one that a curve can have, and is not withdrawn: 1, 2.
    pub(crate) fn unmarked(&self, number: u16) -> Result<(), Refusal>
        ensures { MatchResult result (λ _. Unmarked self.now number) (λ e. Stopped (meaning self.now) number (rule.refused (number_of e))) }
    {
        known(number)?;
        if self.withdrawn[number as usize] {
            return Err(Refusal::Withdrawn);
        }
        Ok(())
    }
}
