//! Reads and writes the board files: the text of a board's wiring.
#![tactic(auto)]

mod judging;
mod lines;
mod parts;
mod reading;
mod says;
#[cfg(test)]
mod tests;
mod wiring;
mod writing;

pub use reading::read_net;
pub use writing::write_net;
