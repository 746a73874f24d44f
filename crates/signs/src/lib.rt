//! The sign of each register of two boards under the leaves of a matching: what tells it apart from another one in a step.
#![tactic(auto)]

mod both;
mod comparing;
mod named;
mod registers;

pub use both::{BothTriples, both_triples};
pub use comparing::alike;
pub use registers::{Sign, both_signs};
