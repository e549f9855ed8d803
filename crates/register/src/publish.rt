//! Publish: a curve is put in force.
ghost use Rattle.std.specs.Prelude.{◌≡◌, [], MatchResult};
ghost use Rattle.refusal.specs.Refusals.{number_of};
ghost use Rattle.curve.specs.Curves.{points};
ghost use Rattle.rules.specs.Calls as rule;
ghost use Rattle.register.specs.Causes.{Publishable};
ghost use Rattle.register.specs.Meaning.{meaning, answer_of, Occupied, IfAccepted, IfRefused, Carries};

use crate::register::Core;
use curve::Curve;
use refusal::Refusal;

impl Core {
    /// The free place that a publish takes and the curve that it puts there, or why the rule refuses it.
    fn weigh<'a>(
        &self,
        number: u16,
        stages: &'a [i32],
        flows: &'a [u32],
    ) -> Result<(usize, Curve<'a>), Refusal>
        ensures { MatchResult result (λ x. Publishable self.now number stages.now flows.now x.0 × (x.1.stages.now ≡ stages.now) × (x.1.flows.now ≡ flows.now)) (λ e. rule.Publish number stages.now flows.now (meaning self.now) (rule.refused (number_of e)) (meaning self.now)) }
    {
        self.unmarked(number)?;
        let curve = Curve::new(stages, flows).ok_or(Refusal::NoLawfulCurve)?;
        if self.table.has(number) {
            return Err(Refusal::AlreadyInForce);
        }
        let place = self.table.vacant().ok_or(Refusal::NoFreePlace)?;
        Ok((place, curve))
    }

    /// Puts a curve in force: 1, 2, 3, 4, 5. Which free place it takes is left open.
    pub fn publish(&mut self, number: u16, stages: &[i32], flows: &[u32]) -> Result<(), Refusal>
        ensures does { rule.Publish number stages.now flows.now (meaning self.old) (answer_of result) (meaning self.new) }
        ensures kept { IfRefused result (self.new ≡ self.old) }
        ensures placed { IfAccepted result (Occupied self.old.table.places self.new.table.places number (points stages.now flows.now)) }
        ensures promises { Carries (meaning self.old) (rule.publish number stages.now flows.now) (answer_of result) [] (meaning self.new) }
    {
        let (place, curve) = self.weigh(number, stages, flows)?;
        self.table.occupy(place, number, curve);
        Ok(())
    }
}
