//! The register's core: curves in force, withdrawal marks, station and serial, and no cipher.
ghost use Rattle.std.specs.Prelude.{◌≡◌, ℕ, ◌<◌, ◌≤◌, true, false, length, get_or, Some, slice_index_or};
ghost use Rattle.curve.specs.Curves.{Curve};
ghost use Rattle.register.specs.Places.{held, once};
ghost use Rattle.register.specs.Soundness.{Sound};

use crate::place::Place;
use crate::table::Table;

/// What a logger knows of curves. A mark stands at the place of its number; place 0 is never marked.
// a device has no heap and fixed memory, so that the marks are an array
// `meaning` reads it as the rules' state by name and no Model does, since contracts speak of its places as well
#[derive(Drop)]
pub struct Core {
    pub(crate) table: Table<Place>,
    pub(crate) withdrawn: [bool; 1025],
    pub(crate) station: u16,
    pub(crate) serial: u32,
    ghost long: { length table.places ≡ 32 },
    ghost wide: { length withdrawn ≡ 1025 },
    ghost counted: { serial ≤ 65535 },
    ghost apart: { (n : ℕ) → once table.places n ≡ true },
    ghost marks: { (n : ℕ) → slice_index_or withdrawn n false ≡ true → 1 ≤ n },
    ghost lawful: { (n : ℕ) (c : Curve) → held table.places n ≡ Some c → ∥ Sound withdrawn n c ∥₁ },
}
