//! The new chips of a plan without breach: that their cells are such as fuses make, and that their files can be written.
#![tactic(auto)]

mod laws;

pub use laws::plans_are_built_well;
