//! A place of the table: free, or in force with its number, beside the arrays of its curve.
ghost use Rattle.std.specs.Prelude.{◌≡◌, ◌≤◌, length, take};
ghost use Rattle.curve.specs.Curves.{Makes};
ghost use Rattle.register.specs.declared.place.PlaceState.TheVariants.{InForce};

use curve::Curve;

/// What a place is in use for.
// by rule a place holds a state enum beside its arrays, free or in force with a number, and no Option
#[derive(Clone, Copy, PartialEq, Eq)]
pub enum PlaceState {
    Free,
    InForce(u16),
}

/// A place: its state, and the first `count` stages and flows are its curve.
// a device has no heap and fixed memory, so that a curve lies in arrays with its length beside them
#[derive(Clone, Copy)]
pub struct Place {
    pub state: PlaceState,
    pub count: usize,
    pub stages: [i32; 16],
    pub flows: [u32; 16],
    pub ghost stages_enough: { length (take count stages) ≡ count },
    pub ghost flows_enough: { length (take count flows) ≡ count },
    pub ghost few: { count ≤ 16 },
}

impl Place {
    /// The curve here, where the stages and the flows make one.
    pub(crate) fn curve(&self) -> Curve<'_>
        requires { Makes (take self.now.count self.now.stages) (take self.now.count self.now.flows) }
        ensures { (result.stages.now ≡ take self.now.count self.now.stages) × (result.flows.now ≡ take self.now.count self.now.flows) }
    {
        Curve {
            stages: &self.stages[..self.count],
            flows: &self.flows[..self.count],
        }
    }

    /// A place that is in force with a number and a curve.
    pub(crate) fn of(number: u16, curve: Curve<'_>) -> Place
        ensures state { result.state ≡ InForce number }
        ensures stages { take result.count result.stages ≡ curve.entry.stages.now }
        ensures flows { take result.count result.flows ≡ curve.entry.flows.now }
    {
        let count = curve.stages.len();
        let mut stages = [0; 16];
        let mut flows = [0; 16];
        stages[..count].copy_from_slice(curve.stages);
        flows[..count].copy_from_slice(curve.flows);
        Place {
            state: PlaceState::InForce(number),
            count,
            stages,
            flows,
        }
    }
}
