//! What the lines of a script come to: ciphers under names, and the calls on them.
//!
//! Public: `Session` with `new`, `line`, `tally`, `cipher` and `ciphers`; `Answer` and its `Value`; `Tally` with `calls`; `Standing`.
#![tactic(auto)]

mod answer;
mod ciphers;
mod entry;
mod fault;
mod session;
mod standing;
mod tally;
mod texts;
mod way;

pub use answer::{Answer, Value};
pub use session::Session;
pub use standing::Standing;
pub use tally::Tally;
