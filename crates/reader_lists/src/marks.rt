ghost use Rattle.std.specs.Prelude.{ℕ, ◌≡◌, true, false, length, replicate, slice_index_or, IfOk};
ghost use Rattle.mig_base.specs.Among.{Among};
ghost use Rattle.reader_lists.specs.declared.lists.Reader.{Reader as ReaderOf};
ghost use Rattle.reader_lists.specs.declared.lists.Reader.TheVariants.{ByRegister as OfRegister, ByUnit as OfUnit};
ghost use Rattle.reader_lists.specs.Lists.{reader_of};
ghost use Rattle.reader_lists.specs.Marked.{marked_in, unmarked_of};

use crate::lists::Reader;
use mig_base::{Circuit, Items, NoMemory, Read};
use std::alloc::Global;

/// Which readers of a board's nodes are marked. What the board doesn't have counts as marked.
#[derive(Drop)]
pub struct Marks {
    nets: Items<bool>,
    registers: Items<bool>,
    units: Items<bool>,
}

/// So many places without mark.
fn blank(alloc: Global, count: usize) -> Result<Items<bool>, NoMemory>
    ensures { IfOk result (λ flags. flags ≡ replicate count false) }
{
    let mut flags = Vec::with_capacity(alloc, count)?;
    for _ in 0..count {
        flags.push(false)?;
    }
    Ok(Items::new(flags))
}

/// Whether a place is marked, or is none.
fn flag(flags: &[bool], place: usize) -> bool
    ensures { result ≡ slice_index_or flags.now place true }
{
    if place < flags.len() {
        flags[place]
    } else {
        true
    }
}

/// Marks a place.
fn raise(flags: &mut Items<bool>, place: usize)
    ensures marked { slice_index_or flags.new place true ≡ true }
    ensures keeps { (i : ℕ) → slice_index_or flags.old i true ≡ true → slice_index_or flags.new i true ≡ true }
{
    if place < flags.items().len() {
        flags.set(place, true);
    }
}

/// Takes the mark of a place away.
fn lower(flags: &mut Items<bool>, place: usize)
    ensures { (i : ℕ) → (i ≡ place → ⊥) → slice_index_or flags.old i true ≡ true → slice_index_or flags.new i true ≡ true }
{
    if place < flags.items().len() {
        flags.set(place, false);
    }
}

impl Marks {
    /// No marks on what reads the nodes of a board.
    pub fn new(alloc: Global, circuit: &Circuit) -> Result<Marks, NoMemory>
        ensures { IfOk result (λ marks. marks ≡ unmarked_of circuit.now) }
    {
        let nets = blank(alloc, circuit.nets.items().len())?;
        let registers = blank(alloc, circuit.registers.items().len())?;
        let units = blank(alloc, circuit.units.items().len())?;
        Ok(Marks {
            nets,
            registers,
            units,
        })
    }

    /// Whether a node is marked.
    pub fn has(&self, node: Read) -> bool
        ensures { result ≡ marked_in self.now (reader_of node) }
    {
        match node {
            Read::OfNet(net) => flag(self.nets.items(), net as usize),
            Read::OfRegister(register) => flag(self.registers.items(), register as usize),
        }
    }

    /// Whether a unit is marked.
    pub fn has_unit(&self, unit: usize) -> bool
        ensures { result ≡ marked_in self.now (OfUnit unit) }
    {
        flag(self.units.items(), unit)
    }

    /// Takes the mark of a node away.
    pub fn clear(&mut self, node: Read)
        ensures { (r : ReaderOf) → (r ≡ reader_of node → ⊥) → marked_in self.old r ≡ true → marked_in self.new r ≡ true }
    {
        match node {
            Read::OfNet(net) => lower(&mut self.nets, net as usize),
            Read::OfRegister(register) => lower(&mut self.registers, register as usize),
        }
    }

    /// Takes the mark of a unit away.
    pub fn clear_unit(&mut self, unit: usize)
        ensures { (r : ReaderOf) → (r ≡ OfUnit unit → ⊥) → marked_in self.old r ≡ true → marked_in self.new r ≡ true }
    {
        lower(&mut self.units, unit);
    }

    /// Marks a register.
    pub fn mark_register(&mut self, register: usize)
        ensures marked { marked_in self.new (OfRegister register) ≡ true }
        ensures keeps { (r : ReaderOf) → marked_in self.old r ≡ true → marked_in self.new r ≡ true }
    {
        raise(&mut self.registers, register);
    }

    /// Marks a reader.
    pub fn mark(&mut self, reader: Reader)
        ensures marked { marked_in self.new reader ≡ true }
        ensures keeps { (r : ReaderOf) → marked_in self.old r ≡ true → marked_in self.new r ≡ true }
    {
        match reader {
            Reader::ByNet(net) => raise(&mut self.nets, net as usize),
            Reader::ByRegister(register) => raise(&mut self.registers, register as usize),
            Reader::ByUnit(unit) => raise(&mut self.units, unit as usize),
        }
    }

    /// Marks these readers.
    pub fn mark_all(&mut self, readers: &[Reader])
        ensures marked { (r : ReaderOf) → Among r readers.now → marked_in self.new r ≡ true }
        ensures keeps { (r : ReaderOf) → marked_in self.old r ≡ true → marked_in self.new r ≡ true }
    {
        for reader in readers {
            self.mark(*reader);
        }
    }
}
