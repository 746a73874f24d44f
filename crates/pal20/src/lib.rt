//! The cells of PAL20 chips.
#![tactic(auto)]

ghost use Rattle.std.specs.Prelude.{◌<◌, ◌^◌, IsTrue, length};
ghost use Rattle.mig_base.specs.DeviceTables.{is_pal20};
ghost use Rattle.mig_base.specs.Cells.{cells_of, AnswersCells};

use mig_base::{ChipCells, ChipError, Fuses, Kind};
use std::alloc::Global;

/// The cells that these fuses make in a PAL20. `Count` where there are not 2,560 of them.
pub fn cells(alloc: Global, kind: Kind, fuses: &Fuses) -> Result<ChipCells, ChipError>
    requires kind { IsTrue (is_pal20 kind) }
    requires few { length fuses.now.bits < 2 ^ 32 }
    ensures { AnswersCells result (cells_of kind fuses.now.bits) }
{
    pal16::pal_cells(alloc, kind, fuses)
}

#[cfg(test)]
mod tests;
