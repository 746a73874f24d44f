//! The words of a call as a command, and its answers with their statuses and reports.
#![tactic(auto)]

mod breaches;
mod exit;
mod reasons;
mod shows;
mod texts;
mod words;

pub use breaches::breached;
pub use exit::{Exit, Refusal, status};
pub use shows::{Counted, accepted, write_ports, write_show};
pub use texts::report;
pub use words::{Command, Listing, Migration, Simulation, read_words};

#[cfg(test)]
mod plan_tests;
#[cfg(test)]
mod tests;
