ghost use Rattle.std.specs.Prelude.{◌≡◌, ◌∷◌, [], length, replicate, IfOk, OnOk};
ghost use Rattle.reader_lists.specs.Lists.{readers_at, no_readers, Adds};

use crate::lists::{Lists, Reader};
use mig_base::{Circuit, NoMemory, Read};
use std::alloc::Global;

/// For each node of a board what reads it.
#[derive(Drop)]
pub struct Readers {
    nets: Lists,
    registers: Lists,
}

impl Readers {
    /// An empty list for each node of a board.
    pub(crate) fn empty(alloc: Global, circuit: &Circuit) -> Result<Readers, NoMemory>
        ensures { IfOk result (λ readers. readers ≡ no_readers circuit.now) }
    {
        let nets = Lists::empty(alloc, circuit.nets.items().len())?;
        let registers = Lists::empty(alloc, circuit.registers.items().len())?;
        Ok(Readers { nets, registers })
    }

    /// What reads a node; nothing where the board has no such node.
    pub fn of(&self, node: Read) -> &[Reader]
        ensures { result.now ≡ readers_at self.now node }
    {
        match node {
            Read::OfNet(net) => self.nets.at(net),
            Read::OfRegister(register) => self.registers.at(register),
        }
    }

    /// Adds a reader of a node, where the board has that node.
    pub(crate) fn add(&mut self, node: Read, reader: Reader) -> Result<(), NoMemory>
        ensures { OnOk result (Adds self.old reader (node ∷ []) self.new) }
    {
        match node {
            Read::OfNet(net) => self.nets.add(net, reader),
            Read::OfRegister(register) => self.registers.add(register, reader),
        }
    }
}
