//! The new chips, plan and wiring of a board that is rebuilt one for one.
#![tactic(auto)]

mod old_rows;
mod one_for_one;
mod rebuilding;

pub use rebuilding::rebuild;
