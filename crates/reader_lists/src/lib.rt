//! What reads each node of a board, and marks on what has to be made anew.
#![tactic(auto)]

mod building;
mod lists;
mod marks;
mod readers;
mod reading;

pub use building::readers_of;
pub use lists::Reader;
pub use marks::Marks;
pub use readers::Readers;
