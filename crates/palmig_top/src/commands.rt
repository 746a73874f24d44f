//! The commands.

pub mod check;
pub mod list;
pub mod migrate;
pub mod planned;
pub mod sim;
