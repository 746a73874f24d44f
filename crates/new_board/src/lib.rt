//! What stands on a new board: its chips, each with its cells and the pins that have a line, and the definitions of them.
#![tactic(auto)]

mod types;

pub use types::{FittedChip, PinNet, PlacedUnit, Rebuilt};
