//! What a plan without breach builds: the texts of its files, and what its board keeps.
#![tactic(auto)]

mod laws;
mod texts;

pub use laws::plans_are_built;
pub use texts::build;
