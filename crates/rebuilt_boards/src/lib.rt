//! The boards that are built one for one: that they show the same, and that their files can be written.
#![tactic(auto)]

mod laws;

pub use laws::{boards_are_built_well, boards_are_rebuilt};
