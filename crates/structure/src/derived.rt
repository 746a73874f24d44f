ghost use Rattle.std.specs.Prelude.{IfOk};
ghost use Rattle.structure.specs.Derived.{IsStructure};

use crate::absorbing::absorbable_of;
use crate::aliases::aliases_of;
use crate::liveness::live_of;
use crate::products::{UnitProducts, products_of};
use crate::purity::purity_of;
use crate::sets::NodeSet;
use mig_base::{Circuit, Items, NoMemory};
use std::alloc::Global;

/// What follows from a board's equations: the pure nodes; whether each unit is live, and whether it is absorbable; the register of each
/// net that is an alias net, and whether the net's level is Q; and the products of each unit.
#[derive(Drop)]
pub struct Structure {
    pub purity: NodeSet,
    pub live: Items<bool>,
    pub absorbable: Items<bool>,
    pub aliases: Items<Option<(u32, bool)>>,
    pub products: Items<UnitProducts>,
}

/// What follows from a board's equations, where the units of its registers are these.
pub fn structure_of(
    alloc: Global,
    circuit: &Circuit,
    registers: &[u32],
) -> Result<Structure, NoMemory>
    ensures { IfOk result (IsStructure circuit.now registers.now) }
{
    let purity = purity_of(alloc, circuit)?;
    let live = live_of(alloc, circuit)?;
    let absorbable = absorbable_of(alloc, circuit)?;
    let aliases = aliases_of(alloc, circuit)?;
    let products = products_of(alloc, circuit, registers)?;
    Ok(Structure {
        purity,
        live,
        absorbable,
        aliases,
        products,
    })
}
