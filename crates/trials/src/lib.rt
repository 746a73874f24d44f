//! The trials: fixed lists of inputs under which two boards with the same ports are run side by side, and the first
//! difference that they show.
#![tactic(auto)]

mod configs;
mod counting;
mod differing;
mod drawing;
mod inputs;
mod pairing;
mod places;
mod replaying;
#[cfg(test)]
mod tests;

pub use differing::first_difference;
pub use inputs::trial;
pub use mig_base::Trace;
pub use replaying::replay;
