//! Scripts, the texts that say what a board is handed step by step, and what it shows under them.
#![tactic(auto)]

mod forms;
mod handed;
mod keeping;
mod levels;
mod naming;
mod reading;
mod scripts;
mod shows;
#[cfg(test)]
mod tests;
mod writing;

pub use mig_base::{Inputs, MOST_SCRIPT_BYTES, MOST_STEPS, Script, ScriptError};
pub use scripts::{read_script, run_script, write_script};
pub use shows::Shown;
