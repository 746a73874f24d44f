ghost use Rattle.std.specs.Prelude.{◌≡◌, replicate, slice_index_or, slice_set, true, false, IfOk};
ghost use Rattle.structure.specs.NodeSets.{contains, every_node, with_node};

use mig_base::{Circuit, Items, NoMemory, Read};
use std::alloc::Global;

/// A set of nodes of a board: for each net, and for each register, whether it is in the set.
#[derive(Drop)]
pub struct NodeSet {
    pub nets: Items<bool>,
    pub registers: Items<bool>,
}

/// So many flags of one value.
pub(crate) fn flags(alloc: Global, count: usize, value: bool) -> Result<Items<bool>, NoMemory>
    ensures { IfOk result (λ flags. flags ≡ replicate count value) }
{
    let mut flags = Vec::with_capacity(alloc, count)?;
    for _ in 0..count {
        flags.push(value)?;
    }
    Ok(Items::new(flags))
}

/// The flag at a place, and false where there is none.
pub fn flag_at(flags: &[bool], place: usize) -> bool
    ensures { result ≡ slice_index_or flags.now place false }
{
    place < flags.len() && flags[place]
}

impl NodeSet {
    /// All nodes of a board, or none of them.
    pub(crate) fn filled(alloc: Global, circuit: &Circuit, is_in: bool) -> Result<NodeSet, NoMemory>
        ensures { IfOk result (λ set. set ≡ every_node circuit.now is_in) }
    {
        let nets = flags(alloc, circuit.nets.items().len(), is_in)?;
        let registers = flags(alloc, circuit.registers.items().len(), is_in)?;
        Ok(NodeSet { nets, registers })
    }

    /// Whether a node is in the set. What the board doesn't have is in none.
    pub fn has(&self, node: Read) -> bool
        ensures { result ≡ contains self.now node }
    {
        match node {
            Read::OfNet(net) => flag_at(self.nets.items(), net as usize),
            Read::OfRegister(register) => flag_at(self.registers.items(), register as usize),
        }
    }

    /// Adds a node, where the board has it.
    pub(crate) fn add(&mut self, node: Read)
        ensures { self.new ≡ with_node self.old node }
    {
        match node {
            Read::OfNet(net) => raise(&mut self.nets, net as usize),
            Read::OfRegister(register) => raise(&mut self.registers, register as usize),
        }
    }
}

/// Makes the flag at a place true, where there is one.
fn raise(flags: &mut Items<bool>, place: usize)
    ensures { flags.new ≡ slice_set flags.old place true }
{
    if place < flags.items().len() {
        flags.set(place, true);
    }
}
