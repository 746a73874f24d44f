ghost use Rattle.std.specs.Prelude.{IfOk};
ghost use Rattle.trials.specs.Stepping.{IsPairing};

use crate::places::{handed_names, places, port_names};
use board::Board;
use mig_base::{Items, NoMemory};
use std::alloc::Global;

/// Which ports of two boards have one name: for each Input and Both port of the second board its place among those of the
/// first, and for each port of the first board its place among those of the second.
#[derive(Drop)]
pub(crate) struct Pairing {
    pub inputs: Items<Option<usize>>,
    pub shows: Items<Option<usize>>,
}

/// Pairs the ports of two boards by name. Only want of memory refuses it.
pub(crate) fn pairing_of(alloc: Global, a: &Board, b: &Board) -> Result<Pairing, NoMemory>
    ensures { IfOk result (IsPairing a.now b.now) }
{
    let _circuits = (
        a.circuit().ports.items().len(),
        b.circuit().ports.items().len(),
    );
    let handed_a = handed_names(alloc, a.net())?;
    let handed_b = handed_names(alloc, b.net())?;
    let inputs = places(alloc, handed_b.as_slice(), handed_a.as_slice())?;
    let ports_a = port_names(alloc, a.net())?;
    let ports_b = port_names(alloc, b.net())?;
    let shows = places(alloc, ports_a.as_slice(), ports_b.as_slice())?;
    Ok(Pairing {
        inputs: Items::new(inputs),
        shows: Items::new(shows),
    })
}
