//! Stages turned into flows by a curve: all are looked at before the first flow is written.
ghost use Rattle.std.specs.Prelude.{◌≡◌, ◌≤◌, length, Decides};
ghost use Rattle.curve.specs.Curves.{points};
ghost use Rattle.rules.specs.Calls.{Flows};
ghost use Rattle.register.specs.Filling.{Within, Filled};

use curve::Curve;
use refusal::Refusal;

/// Whether each stage lies from the first point of a curve to the last.
fn within(curve: Curve<'_>, stages: &[i32]) -> bool
    ensures { Decides result (Within curve.entry.stages.now stages.now) }
{
    let first = curve.stages[0];
    let last = curve.stages[curve.stages.len() - 1];
    stages.iter().all(|stage| first <= *stage && *stage <= last)
}

/// Writes the flows of the stages, which all lie within the curve, to the front of the list.
fn write(curve: Curve<'_>, stages: &[i32], flows: &mut [u32])
    requires room { length stages.now ≤ length flows.old }
    requires within { Within curve.stages.now stages.now }
    ensures { Flows (points curve.entry.stages.now curve.entry.flows.now) stages.now flows.old flows.new }
{
    // by place, stage by stage: of a list that `iter_mut` lends to a `zip` a proof keeps only the length
    for i in 0..stages.len() {
        flows[i] = curve.flow(stages[i]).unwrap();
    }
}

/// Writes the flows of the stages to the front of the list, or answers 7 and writes nothing.
pub(crate) fn fill(curve: Curve<'_>, stages: &[i32], flows: &mut [u32]) -> Result<(), Refusal>
    requires { length stages.now ≤ length flows.old }
    ensures { Filled curve.entry.stages.now curve.entry.flows.now stages.now flows.old flows.new result }
{
    if !within(curve, stages) {
        return Err(Refusal::StageOffCurve);
    }
    write(curve, stages, flows);
    Ok(())
}
