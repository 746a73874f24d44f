ghost use Rattle.std.specs.Prelude.{◌≡◌, IfOk};
ghost use Rattle.mig_base.specs.Boards.{circuit};

use crate::board_parts::Parts;
use crate::kinds::ports_of;
use crate::numbers::Numbers;
use mig_base::{Circuit, Items, NoMemory};
use std::alloc::Global;

/// The circuit of a board of these parts. Only want of memory refuses it.
pub fn circuit_of(alloc: Global, parts: &Parts) -> Result<Circuit, NoMemory>
    ensures { IfOk result (λ board. board ≡ circuit parts.now.net parts.now.chips) }
{
    let numbers = Numbers::new(alloc, parts)?;
    let drivers = numbers.drivers(alloc)?;
    let registers = numbers.registers(alloc)?;
    let wires = numbers.wires(alloc, drivers.as_slice())?;
    let ports = ports_of(alloc, parts.net().nets.items())?;
    Ok(Circuit {
        nets: Items::new(wires),
        units: Items::new(drivers),
        registers: Items::new(registers),
        ports: Items::new(ports),
    })
}
