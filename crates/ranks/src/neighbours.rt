ghost use Rattle.std.specs.Prelude.{◌≡◌, length, IfOk, OnOk, [], replicate};
ghost use Rattle.ranks.specs.Neighbours.{neighbours_at, IsAdded};

use crate::lists::Lists;
use mig_base::{NoMemory, Read};
use std::alloc::Global;

/// A list of nodes for each node of a board.
#[derive(Drop)]
pub(crate) struct Neighbours {
    pub(crate) nets: Lists,
    pub(crate) registers: Lists,
}

impl Neighbours {
    /// The list of a node, and an empty one where the board has no such node.
    pub(crate) fn of(&self, node: Read) -> &[Read]
        ensures { result.now ≡ neighbours_at self.now node }
    {
        match node {
            Read::OfNet(net) => self.nets.at(net),
            Read::OfRegister(register) => self.registers.at(register),
        }
    }

    /// Adds a node to the list of another, where the board has that one.
    pub(crate) fn add(&mut self, to: Read, node: Read) -> Result<(), NoMemory>
        ensures { OnOk result (IsAdded self.old to node self.new) }
    {
        match to {
            Read::OfNet(net) => self.nets.add(net, node),
            Read::OfRegister(register) => self.registers.add(register, node),
        }
    }
}
