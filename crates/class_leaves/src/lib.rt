//! The leaves of a matching of two boards: the variables of each class, whose registers share a level, and of each handed port.
#![tactic(auto)]

mod counting;
mod triples;

pub use counting::{handed_ports, leaves_of, pure_classes, pure_registers};
use leaves::Leaf;
use mig_base::Items;
pub use triples::{leaf_triples, levels_at};

/// The leaf of each register of two boards, those of the first board before those of the second, and of each handed port of the
/// first one.
#[derive(Drop)]
pub struct Leaves {
    pub registers: Items<Leaf>,
    pub ports: Items<Leaf>,
}
