//! The top call: a command's words to its files and its report.
#![tactic(auto)]

mod boards;
mod commands;
mod concluding;
mod handed;
mod loads;
mod new_files;
mod prepared;
mod saves;
mod telling;
mod top;

pub use answers::{Exit, Refusal, status};
pub use saves::NewFile;
pub use top::run;
