ghost use Rattle.std.specs.Prelude.{◌≡◌, None, true, false, length, replicate, IfOk, slice_get};
ghost use Rattle.ranks.specs.Marked.{mark_in, mark_of, number_in, with_mark, ready, unmarked_of, IsWaiting};

use mig_base::{Circuit, Items, NoMemory, Read};
use std::alloc::Global;

/// A number for each node of a board, or none so far.
#[derive(Drop)]
pub(crate) struct Marks {
    pub(crate) nets: Items<Option<u32>>,
    pub(crate) registers: Items<Option<u32>>,
}

/// So many places without number.
fn blank(alloc: Global, count: usize) -> Result<Items<Option<u32>>, NoMemory>
    ensures { IfOk result (λ marks. marks ≡ replicate count None) }
{
    let mut marks = Vec::with_capacity(alloc, count)?;
    for _ in 0..count {
        marks.push(None)?;
    }
    Ok(Items::new(marks))
}

/// The number at a place, where there is that place.
fn get(marks: &[Option<u32>], place: u32) -> Option<Option<u32>>
    ensures { result ≡ slice_get marks.now place }
{
    let place = place as usize;
    if place < marks.len() {
        Some(marks[place])
    } else {
        None
    }
}

impl Marks {
    /// No numbers for the nodes of a board.
    pub(crate) fn new(alloc: Global, circuit: &Circuit) -> Result<Marks, NoMemory>
        ensures { IfOk result (λ marks. marks ≡ unmarked_of circuit.now) }
    {
        let nets = blank(alloc, circuit.nets.items().len())?;
        let registers = blank(alloc, circuit.registers.items().len())?;
        Ok(Marks { nets, registers })
    }

    /// The number of a node, where the board has that node.
    pub(crate) fn get(&self, node: Read) -> Option<Option<u32>>
        ensures { result ≡ mark_in self.now node }
    {
        match node {
            Read::OfNet(net) => get(self.nets.items(), net),
            Read::OfRegister(register) => get(self.registers.items(), register),
        }
    }

    /// The number of a node, and 0 of what the board doesn't have.
    pub(crate) fn ready(&self, node: Read) -> Option<u32>
        ensures { result ≡ ready (mark_in self.now node) }
    {
        match self.get(node) {
            None => Some(0),
            Some(mark) => mark,
        }
    }

    /// The number of a node, where it has one.
    pub(crate) fn mark(&self, node: Read) -> Option<u32>
        ensures { result ≡ mark_of (mark_in self.now node) }
    {
        match self.get(node) {
            None => None,
            Some(mark) => mark,
        }
    }

    /// The number of a node, and 0 where there is none.
    pub(crate) fn number(&self, node: Read) -> u32
        ensures { result ≡ number_in self.now node }
    {
        self.mark(node).unwrap_or(0)
    }

    /// Whether a node of the board has no number.
    pub(crate) fn waits(&self, node: Read) -> bool
        ensures yes { result ≡ true → IsWaiting self.now node }
        ensures no { result ≡ false → IsWaiting self.now node → ⊥ }
    {
        matches!(self.get(node), Some(None))
    }

    /// Gives a number to a node that has none.
    pub(crate) fn set(&mut self, node: Read, mark: u32)
        requires { IsWaiting self.old node }
        ensures { self.new ≡ with_mark self.old node mark }
    {
        match node {
            Read::OfNet(net) => self.nets.set(net as usize, Some(mark)),
            Read::OfRegister(register) => self.registers.set(register as usize, Some(mark)),
        }
    }
}
