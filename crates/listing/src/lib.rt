//! Writes the cells of a chip as text.
#![tactic(auto)]

mod writing;

pub use writing::listing;

#[cfg(test)]
mod tests;
