//! A register as it is at first.
ghost use Rattle.std.specs.Prelude.{◌≡◌};
ghost use Rattle.rules.specs.Registers.{new_state};
ghost use Rattle.register.specs.Meaning.{meaning};

use crate::register::Core;
use crate::table::Table;

impl Core {
    /// A new register: no curve, no mark, serial 0.
    pub fn new(station: u16) -> Core
        ensures { meaning result ≡ new_state station }
    {
        Core {
            table: Table::empty(),
            withdrawn: [false; 1025],
            station,
            serial: 0,
        }
    }
}
