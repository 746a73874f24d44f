//! The cells of a chip of any kind.
#![tactic(auto)]

ghost use Rattle.std.specs.Prelude.{◌<◌, ◌^◌, length};
ghost use Rattle.mig_base.specs.Cells.{cells_of, AnswersCells};

use mig_base::{ChipCells, ChipError, Fuses, Kind};
use std::alloc::Global;

/// The cells that these fuses make in a chip of this kind.
///
/// # Errors
/// What the device of the kind refuses; `Memory`.
pub fn cells(alloc: Global, kind: Kind, fuses: &Fuses) -> Result<ChipCells, ChipError>
    requires few { length fuses.now.bits < 2 ^ 32 }
    ensures { AnswersCells result (cells_of kind fuses.now.bits) }
{
    match kind {
        Kind::Pal16L8 | Kind::Pal16R4 | Kind::Pal16R6 | Kind::Pal16R8 => {
            pal16::cells(alloc, kind, fuses)
        }
        Kind::Pal20L8 | Kind::Pal20R4 | Kind::Pal20R6 | Kind::Pal20R8 => {
            pal20::cells(alloc, kind, fuses)
        }
        Kind::Gal16V8 | Kind::Gal20V8 => v8::cells(alloc, kind, fuses),
        Kind::Gal22V10 | Kind::Gal22V10Q => v22::cells(alloc, kind, fuses),
    }
}
