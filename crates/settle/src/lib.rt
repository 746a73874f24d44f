//! Settled levels, steps and shows of a board.
#![tactic(auto)]

mod config;
mod edges;
mod evaluating;
mod following;
mod inputs;
mod marked;
mod nets;
mod present;
mod settling;
mod stepping;
#[cfg(test)]
mod tests;
mod values;

pub use config::Config;
pub use mig_base::{Inputs, Levels, State};
pub use present::{drive_level_of, net_level_of, visible_level_of};
pub use settling::{settle, settle_into};
pub use stepping::{handed_count, power_up, shows_into, step};
