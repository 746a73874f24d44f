//! The cells and the wires of a new chip, from its units with their rows over variables.
#![tactic(auto)]

mod full_rows;
mod macrocells;
mod pin_columns;
mod wires;

pub use pin_columns::Columns;
