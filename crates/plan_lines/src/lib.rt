//! What the lines of a plan say of a board's units: which are placed and which absorbed, and the breaches of chip lines, of place
//! and absorb lines, and of units that no line names.
#![tactic(auto)]

mod chips;
mod lines;
mod placed;
mod rules;
mod units;

pub use placed::{absorbed_units, placings};
pub use rules::line_breach;
