//! Two neighbouring points of a curve, and the flow on the line between them.
ghost use Rattle.std.specs.Prelude.{◌≡◌, ◌*◌, ◌/◌, ◌<◌, ◌≤◌, ◌≤ℤ◌, pos, Decides, MatchOption, slice_index, slice_index_or};
ghost use Rattle.curve.specs.Answers.{Step, Holds};
ghost use Rattle.curve.specs.Curves.{InRange, above, flow_between};

const LOWEST: i32 = -20000;

const HIGHEST: i32 = 60000;

const MOST: u32 = 2_000_000_000;

/// A stage in millimetres and the flow there in litres a second.
#[derive(Clone, Copy)]
pub(crate) struct Point {
    stage: i32,
    flow: u32,
}

impl Point {
    /// Whether a curve may have the point.
    fn in_range(self) -> bool
        ensures { Decides result (InRange self.stage self.flow) }
    {
        (LOWEST..=HIGHEST).contains(&self.stage) && self.flow <= MOST
    }
}

/// The line from one point to the next.
#[derive(Clone, Copy)]
pub(crate) struct Segment {
    from: Point,
    to: Point,
}

impl Segment {
    /// The line between the points of two stages and their flows.
    pub(crate) fn new(stages: &[i32; 2], flows: &[u32; 2]) -> Segment
        ensures from { (result.from.stage ≡ slice_index_or stages.now 0 (pos 0)) × (result.from.flow ≡ slice_index flows.now 0) }
        ensures to { (result.to.stage ≡ slice_index_or stages.now 1 (pos 0)) × (result.to.flow ≡ slice_index flows.now 1) }
    {
        let [low, high] = *stages;
        let [least, most] = *flows;
        Segment {
            from: Point {
                stage: low,
                flow: least,
            },
            to: Point {
                stage: high,
                flow: most,
            },
        }
    }

    /// Whether a lawful curve may have it.
    pub(crate) fn is_step(self) -> bool
        ensures { Decides result (Step self.from.stage self.from.flow self.to.stage self.to.flow) }
    {
        self.from.in_range()
            && self.to.in_range()
            && self.from.stage < self.to.stage
            && self.from.flow <= self.to.flow
    }

    /// The flow at a stage, where the line holds the stage.
    pub(crate) fn flow(self, stage: i32) -> Option<u32>
        ensures { MatchOption result (Holds self.from.stage self.to.stage stage → ⊥) (λ q. Holds self.from.stage self.to.stage stage
            × (q ≡ flow_between (record { stage = self.from.stage; flow = self.from.flow }) (record { stage = self.to.stage; flow = self.to.flow }) stage)) }
    {
        (self.from.stage <= stage && stage <= self.to.stage).then(|| self.flow_at(stage))
    }

    /// The flow at a stage that the line holds, rounded down.
    fn flow_at(self, stage: i32) -> u32
        requires { Holds self.from.stage self.to.stage stage }
        ensures { result ≡ flow_between (record { stage = self.from.stage; flow = self.from.flow }) (record { stage = self.to.stage; flow = self.to.flow }) stage }
    {
        let way = height(self.from.stage, self.to.stage);
        if way == 0 {
            return self.from.flow;
        }
        let part = height(self.from.stage, stage);
        let rise = self.to.flow.saturating_sub(self.from.flow);
        self.from.flow + share(u64::from(rise), part, way) as u32
    }
}

/// How far a stage lies above another that is not above it.
fn height(low: i32, high: i32) -> u64
    requires { low ≤ℤ high }
    ensures value { result ≡ above low high }
    ensures small { result < 4294967296 }
{
    (i64::from(high) - i64::from(low)) as u64
}

/// What a rise of the flow comes to at a part of the way, rounded down: no more than the rise.
fn share(rise: u64, part: u64, way: u64) -> u64
    requires rise { rise < 4294967296 }
    requires part { part ≤ way }
    requires way { way < 4294967296 }
    requires some { 0 < way }
    ensures value { result ≡ rise * part / way }
    ensures within { result ≤ rise }
{
    rise * part / way
}
