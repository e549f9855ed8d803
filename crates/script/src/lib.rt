//! What a line of a script says: its words, and the call that they make.
//!
//! Public: `read`, with `Call`, `Make` and `Work`; `Verb` with `usage`; `Unreadable` with `why`.
#![tactic(auto)]

mod call;
mod misread;
mod reading;
mod unreadable;
mod verb;
mod words;

pub use call::{Call, Make, Work};
pub use reading::read;
pub use unreadable::Unreadable;
pub use verb::Verb;
