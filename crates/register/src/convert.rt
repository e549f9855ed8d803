//! Convert: stages are turned into flows by the curve in force.
ghost use Rattle.std.specs.Prelude.{length, MatchResult};
ghost use Rattle.refusal.specs.Refusals.{number_of};
ghost use Rattle.curve.specs.Curves.{points};
ghost use Rattle.rules.specs.Calls as rule;
ghost use Rattle.register.specs.Causes.{Convertible};
ghost use Rattle.register.specs.Meaning.{meaning, answer_of, Carries};

use crate::fill::fill;
use crate::register::Core;
use curve::Curve;
use refusal::Refusal;

impl Core {
    /// The curve in force with a number, or why the rule refuses these stages and this list before it looks at one.
    fn seek(&self, number: u16, stages: &[i32], flows: &[u32]) -> Result<Curve<'_>, Refusal>
        ensures { MatchResult result (λ c. Convertible self.now number (length stages.now) (length flows.now) (points c.stages.now c.flows.now)) (λ e. rule.Convert number stages.now flows.now (meaning self.now) (rule.refused (number_of e)) flows.now) }
    {
        self.unmarked(number)?;
        let curve = self.points(number).ok_or(Refusal::NotInForce)?;
        if flows.len() < stages.len() {
            return Err(Refusal::TooShort);
        }
        Ok(curve)
    }

    /// Writes the flows of the stages, by the curve in force, to the front of the list: 1, 2, 6, 11, 7.
    pub fn convert(&self, number: u16, stages: &[i32], flows: &mut [u32]) -> Result<(), Refusal>
        ensures does { rule.Convert number stages.now flows.old (meaning self.now) (answer_of result) flows.new }
        ensures promises { Carries (meaning self.now) (rule.convert number stages.now flows.old) (answer_of result) flows.new (meaning self.now) }
    {
        let curve = self.seek(number, stages, flows)?;
        fill(curve, stages, flows)
    }
}
