//! Reads fuse texts (JESD3-C, in the profile of docs/fuse_text.md).
#![tactic(auto)]

mod body;
mod cut;
mod field;
mod fuses;
mod marks;
mod numbers;
mod overall;
mod read;
mod said;
mod sums;

pub use read::{fields, read_jed};

#[cfg(test)]
mod tests;
