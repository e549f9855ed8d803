//! Rating curves: which are lawful, and the flow at a stage.
//!
//! A curve is given by a list of stages and a list of flows. Public: `Curve`, which is two lists that make a lawful curve,
//! with `new` and `flow`; `makes_curve` and `flow`, of any two lists; and `any_pair_gives_the_flow`, which does nothing and
//! whose contract is the laws of curves.
#![tactic(auto)]

ghost use Rattle.std.specs.Prelude.{◌≡◌, ℕ, ◌+◌, ◌<◌, length, pos, Decides, IsSome, IfSome, ◌↔◌, slice_index, slice_index_or};
ghost use Rattle.curve.specs.Answers.{StepAt, Found, FlowOf, Lawfully};
ghost use Rattle.curve.specs.Curves.{points, Makes};
ghost use Rattle.curve.specs.Laws.{CurveLaws};

mod line;

use line::Segment;

/// Two lists that make a lawful curve.
// a device keeps a curve in two arrays, so it is lent as the two lists that lie there
#[derive(Clone, Copy, PartialEq, Eq, Debug)]
pub struct Curve<'a> {
    pub stages: &'a [i32],
    pub flows: &'a [u32],
    pub ghost lawful: { Makes stages.now flows.now },
}

impl<'a> Curve<'a> {
    /// The curve of two lists, where they make a lawful one.
    pub fn new(stages: &'a [i32], flows: &'a [u32]) -> Option<Curve<'a>>
        ensures made { IsSome result ↔ Makes stages.now flows.now }
        ensures same { IfSome result (λ c. (c.stages.now ≡ stages.now) × (c.flows.now ≡ flows.now)) }
    {
        if !makes_curve(stages, flows) {
            return None;
        }
        Some(Curve { stages, flows })
    }

    /// The flow at a stage, none exactly where the curve does not cover it.
    pub fn flow(self, stage: i32) -> Option<u32>
        ensures { FlowOf (points self.entry.stages.now self.entry.flows.now) stage result }
    {
        flow(self.stages, self.flows, stage)
    }
}

// Whoever publishes has two lists, which make a `Curve` or do not; so the calls here and `Curve::new` take the two.

/// Whether the lists are of equal length and make a lawful curve.
pub fn makes_curve(stages: &[i32], flows: &[u32]) -> bool
    ensures { Decides result (Makes stages.now flows.now) }
{
    let count = stages.len();
    if count != flows.len() || count < 2 || count > 16 {
        return false;
    }
    each_step(stages, flows)
}

/// Whether each point may be followed by the next.
fn each_step(stages: &[i32], flows: &[u32]) -> bool
    requires { length stages.now ≡ length flows.now }
    ensures { Decides result ((k : ℕ) → k + 1 < length stages.now → StepAt stages.now flows.now k) }
{
    stages
        .array_windows::<2>()
        .zip(flows.array_windows::<2>())
        .all(|(stages, flows)| Segment::new(stages, flows).is_step())
}

/// The flow at a stage by the first pair of neighbours that holds it, none where no pair does. On a lawful curve any pair
/// that holds it gives the same, and there is none exactly below the first point and above the last.
pub fn flow(stages: &[i32], flows: &[u32], stage: i32) -> Option<u32>
    ensures first { Found (points stages.now flows.now) stage result }
    ensures lawful { Lawfully (points stages.now flows.now) stage result }
{
    let stage_pairs = stages.array_windows::<2>();
    let flow_pairs = flows.array_windows::<2>();
    stage_pairs
        .zip(flow_pairs)
        .find_map(|(stages, flows)| Segment::new(stages, flows).flow(stage))
}

/// Any neighbouring pair that holds a stage gives the same flow, and a stage has a flow exactly where the curve covers it.
pub fn any_pair_gives_the_flow()
    ensures { CurveLaws }
{}
