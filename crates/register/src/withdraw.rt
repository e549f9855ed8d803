//! Withdraw: a number is marked, for good.
ghost use Rattle.std.specs.Prelude.{◌≡◌, []};
ghost use Rattle.rules.specs.Calls as rule;
ghost use Rattle.register.specs.Meaning.{meaning, answer_of, Vacated, IfAccepted, IfRefused, Carries};

use crate::number::known;
use crate::register::Core;
use refusal::Refusal;

impl Core {
    /// Marks a number as withdrawn, and frees the place of its curve: 1.
    pub fn withdraw(&mut self, number: u16) -> Result<(), Refusal>
        ensures does { rule.Withdraw number (meaning self.old) (answer_of result) (meaning self.new) }
        ensures kept { IfRefused result (self.new ≡ self.old) }
        ensures freed { IfAccepted result (Vacated self.old.table.places self.new.table.places number) }
        ensures promises { Carries (meaning self.old) (rule.withdraw number) (answer_of result) [] (meaning self.new) }
    {
        known(number)?;
        self.table.evict(number);
        self.withdrawn[number as usize] = true;
        Ok(())
    }
}
