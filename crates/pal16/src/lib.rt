//! The cells of PAL chips.
#![tactic(auto)]

ghost use Rattle.std.specs.Prelude.{◌<◌, ◌^◌, IsTrue, length};
ghost use Rattle.mig_base.specs.DeviceTables.{is_pal, is_pal16};
ghost use Rattle.mig_base.specs.Cells.{cells_of, AnswersCells};

mod macrocells;

use devices::array_size;
use mig_base::{ChipCells, ChipError, Fuses, Items, Kind, Mode, Row};
use std::alloc::Global;

/// The cells that these fuses make in a PAL16. `Count` where there are not 2,048 of them.
pub fn cells(alloc: Global, kind: Kind, fuses: &Fuses) -> Result<ChipCells, ChipError>
    requires kind { IsTrue (is_pal16 kind) }
    requires few { length fuses.now.bits < 2 ^ 32 }
    ensures { AnswersCells result (cells_of kind fuses.now.bits) }
{
    pal_cells(alloc, kind, fuses)
}

/// The cells that these fuses make in any PAL: 64 rows, eight for each macrocell.
pub fn pal_cells(alloc: Global, kind: Kind, fuses: &Fuses) -> Result<ChipCells, ChipError>
    requires kind { IsTrue (is_pal kind) }
    requires few { length fuses.now.bits < 2 ^ 32 }
    ensures { AnswersCells result (cells_of kind fuses.now.bits) }
{
    let bits = fuses.bits.items();
    if bits.len() != array_size(kind) {
        return Err(ChipError::Count {
            found: bits.len() as u32,
        });
    }
    match macrocells::cell_list(alloc, kind, bits) {
        Ok(cells) => Ok(ChipCells {
            kind,
            mode: Mode::Fixed,
            cells: Items::new(cells),
            reset: Row::Never,
            preset: Row::Never,
        }),
        Err(_) => Err(ChipError::Memory),
    }
}

#[cfg(test)]
mod tests;
