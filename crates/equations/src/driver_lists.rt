ghost use Rattle.std.specs.Prelude.{◌≡◌, ◌<◌, ◌++◌, ◌∷◌, [], List, map, length, replicate, slice_index_or, slice_set, IfOk, OnOk};
ghost use Rattle.std.specs.List.{zip};
ghost use Rattle.equations.specs.Tables.{wire_of};

use crate::kinds::KindPull;
use mig_base::{Items, NoMemory, Wire};
use std::alloc::Global;
use std::marker::Model;

/// The nets of these kinds, with these drivers.
fn zip_wires(
    alloc: Global,
    kinds: Vec<KindPull>,
    lists: Vec<Vec<u32>>,
) -> Result<Vec<Wire>, NoMemory>
    ensures { IfOk result (λ wires. wires.items ≡ map (λ w. wire_of (w.0, w.1.items)) (zip kinds.items lists.items)) }
{
    let wires = kinds
        .into_iter()
        .zip(lists)
        .map(|((kind, pull), drivers)| Wire {
            kind,
            pull,
            drivers: Items::new(drivers),
        })
        .collect(alloc)?;
    Ok(wires)
}

/// A list of unit numbers for each net.
#[derive(Drop)]
pub(crate) struct DriverLists {
    lists: Vec<Vec<u32>>,
}

impl Model for DriverLists {
    ghost use Rattle.std.specs.Prelude.{List, ℕ, map};

    ghost Value = { List (List ℕ) };

    ghost view = { λ drivers. map (λ list. list.items) drivers.lists.items };
}

impl DriverLists {
    /// An empty list for each of these nets.
    pub(crate) fn new(alloc: Global, nets: usize) -> Result<DriverLists, NoMemory>
        ensures { IfOk result (λ drivers. drivers ≡ replicate nets []) }
    {
        let mut lists = Vec::with_capacity(alloc, nets)?;
        for _ in 0..nets {
            lists.push(Vec::new(alloc))?;
        }
        Ok(DriverLists { lists })
    }

    /// Adds a unit to the list of a net, where the net has a list.
    pub(crate) fn add(&mut self, net: u32, unit: u32) -> Result<(), NoMemory>
        ensures { OnOk result (self.new ≡ slice_set self.old net (slice_index_or self.old net [] ++ unit ∷ [])) }
    {
        let net = net as usize;
        if net < self.lists.len() {
            self.lists[net].push(unit)?;
        }
        Ok(())
    }

    /// The nets of these kinds, with their drivers.
    pub(crate) fn into_wires(
        self,
        alloc: Global,
        kinds: Vec<KindPull>,
    ) -> Result<Vec<Wire>, NoMemory>
        ensures { IfOk result (λ wires. wires.items ≡ map wire_of (zip kinds.items self)) }
    {
        let wires = zip_wires(alloc, kinds, self.lists)?;
        Ok(wires)
    }
}
