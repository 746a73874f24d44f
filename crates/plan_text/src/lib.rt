//! Reads and writes the plan files: the new chips of a migration, and what becomes of the old units.
#![tactic(auto)]

mod judging;
mod lines;
mod pins;
mod reading;
mod says;
#[cfg(test)]
mod tests;
mod writing;

pub use reading::read_plan;
pub use writing::write_plan;
