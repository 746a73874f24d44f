//! Runs a board under a script, and sends what it shows to a sink piece by piece.
#![tactic(auto)]

mod pieces;
mod progress;
mod running;

pub use running::put_run;
