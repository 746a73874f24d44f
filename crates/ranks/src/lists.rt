ghost use Rattle.std.specs.Prelude.{◌≡◌, ◌<◌, ◌++◌, ◌∷◌, [], true, false, length, replicate, slice_index_or, IfOk, OnOk};
ghost use Rattle.mig_base.specs.Among.{Among};
ghost use Rattle.ranks.specs.Neighbours.{IsPut};

use mig_base::{NoMemory, Read};
use std::alloc::Global;
use std::marker::Model;

/// Lists of nodes, by number.
#[derive(Drop)]
pub(crate) struct Lists {
    lists: Vec<Vec<Read>>,
}

impl Model for Lists {
    ghost use Rattle.std.specs.Prelude.{List, map};
    ghost use Rattle.mig_base.specs.declared.circuit.Read.{Read as ReadOf};

    ghost Value = { List (List ReadOf) };

    ghost view = { λ it. map (λ list. list.items) it.lists.items };
}

impl Lists {
    /// So many empty lists.
    pub(crate) fn empty(alloc: Global, count: usize) -> Result<Lists, NoMemory>
        ensures { IfOk result (λ lists. lists ≡ replicate count []) }
    {
        let mut lists = Vec::with_capacity(alloc, count)?;
        for _ in 0..count {
            lists.push(Vec::new(alloc))?;
        }
        Ok(Lists { lists })
    }

    /// Adds a list at the end.
    pub(crate) fn push(&mut self, list: Vec<Read>) -> Result<(), NoMemory>
        ensures { OnOk result (self.new ≡ self.old ++ list.items ∷ []) }
    {
        self.lists.push(list)?;
        Ok(())
    }

    /// The list of a number, and an empty one where there is none.
    pub(crate) fn at(&self, place: u32) -> &[Read]
        ensures { result.now ≡ slice_index_or self.now place [] }
    {
        let place = place as usize;
        if place < self.lists.len() {
            self.lists[place].as_slice()
        } else {
            &[]
        }
    }

    /// Adds a node to the list of a number, where there is one and it doesn't end with that node.
    pub(crate) fn add(&mut self, place: u32, node: Read) -> Result<(), NoMemory>
        ensures { OnOk result (IsPut self.old place node self.new) }
    {
        if ends_with(self.at(place), node) {
            return Ok(());
        }
        self.put(place, node)
    }

    /// Adds a node to the list of a number, where there is one.
    fn put(&mut self, place: u32, node: Read) -> Result<(), NoMemory>
        ensures { OnOk result (IsPut self.old place node self.new) }
    {
        let place = place as usize;
        if place < self.lists.len() {
            self.lists[place].push(node)?;
        }
        Ok(())
    }
}

/// Whether the last of these nodes is this one.
fn ends_with(list: &[Read], node: Read) -> bool
    ensures { result ≡ true → Among node list.now }
{
    if list.is_empty() {
        return false;
    }
    same_node(list[list.len() - 1], node)
}

/// Whether two nodes are the same.
pub(crate) fn same_node(node: Read, other: Read) -> bool
    ensures same { result ≡ true → node ≡ other }
    ensures apart { result ≡ false → node ≡ other → ⊥ }
{
    node == other
}
