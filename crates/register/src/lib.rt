//! The register's core: curves in force, withdrawal marks, station and serial, with no cipher and no heap.
//!
//! What each call does is its rule in `rules`, at the register's `meaning`, which hides the places. Public: `Core` with
//! `new`, `publish`, `withdraw`, `convert`, and to look things up `station`, `serial`, `is_in_force`, `is_withdrawn`,
//! `points`, `next_in_force`, `next_withdrawn`.
#![tactic(auto)]

mod convert;
mod fill;
mod looks;
mod number;
mod place;
mod publish;
mod register;
mod start;
mod table;
mod withdraw;

pub use register::Core;

/// The highest number that a curve can have.
const LAST: u16 = 1024;
