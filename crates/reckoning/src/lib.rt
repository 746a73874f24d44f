//! Settled levels as functions over a graph: of every net, drive and visible Q, and of what every register takes, from
//! those of the stored and handed levels.
#![tactic(auto)]

mod lists;
mod logic;
mod nets;
mod settling;
mod triples;
mod whole;

pub use lists::{drives, next};
pub use settling::settle_nodes;
pub use triples::{Table, Three, Triples};
pub use whole::settled_triples;
