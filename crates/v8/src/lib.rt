//! GAL16V8 and GAL20V8 chips: the cells of their fuses, and the fuses of their cells.
#![tactic(auto)]

ghost use Rattle.std.specs.Prelude.{◌≡◌, ◌<◌, ◌^◌, IsTrue, IfOk, Ok, length};
ghost use Rattle.mig_base.specs.DeviceTables.{is_v8};
ghost use Rattle.mig_base.specs.Cells.{cells_of, AnswersCells};
ghost use Rattle.mig_base.specs.WellFormed.{IsWellFormed};
ghost use Rattle.mig_base.specs.WrittenCells.{v8_fuses};

mod reading;
mod settings;
mod writing;

use mig_base::{ChipCells, ChipError, Fuses, Items, Kind, NoMemory};
use std::alloc::Global;

/// The cells that these fuses make. `Count` where there are not as many as the kind has, then `ModeBits` where SYN and AC0
/// are both 0, then `Ac1InComplex` with the first macrocell in row order that can't stand in complex mode.
pub fn cells(alloc: Global, kind: Kind, fuses: &Fuses) -> Result<ChipCells, ChipError>
    requires kind { IsTrue (is_v8 kind) }
    requires few { length fuses.now.bits < 2 ^ 32 }
    ensures { AnswersCells result (cells_of kind fuses.now.bits) }
{
    let bits = fuses.bits.items();
    if bits.len() != settings::fuse_count(kind) {
        return Err(ChipError::Count {
            found: bits.len() as u32,
        });
    }
    match settings::mode_of(kind, bits) {
        Some(mode) => reading::cells_in(alloc, kind, mode, bits),
        None => Err(ChipError::ModeBits),
    }
}

/// The fuses of these cells, in each of the three modes. `cells` of them are the same cells again.
#[tactic(auto, using(crate::proofs::Again::again_rules))]
pub fn fuses_of(alloc: Global, cells: &ChipCells) -> Result<Fuses, NoMemory>
    requires kind { IsTrue (is_v8 cells.now.kind) }
    requires well_formed { IsWellFormed cells.now }
    ensures written { IfOk result (λ fuses. fuses.bits ≡ v8_fuses cells.now) }
    ensures again { IfOk result (λ fuses. cells_of cells.now.kind fuses.bits ≡ Ok cells.now) }
{
    let mut bits = Vec::new(alloc);
    writing::push_array(alloc, cells, &mut bits)?;
    writing::push_settings(cells, &mut bits)?;
    Ok(Fuses {
        bits: Items::new(bits),
    })
}

#[cfg(test)]
mod tests;
