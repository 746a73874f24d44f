//! Writes fuse texts (JESD3-C, in the profile of docs/fuse_text.md).
#![tactic(auto)]

mod digits;
mod groups;
mod law;
mod sums;
mod text;

pub use law::read_back;
pub use sums::{byte_sum, fuse_sum};
pub use text::jed_bytes;

#[cfg(test)]
mod tests;
