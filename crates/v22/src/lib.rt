//! GAL22V10 chips: the cells of their fuses, and the fuses of their cells.
#![tactic(auto)]

ghost use Rattle.std.specs.Prelude.{◌≡◌, ◌<◌, ◌^◌, ◌==◌, ◌||◌, IsTrue, IfOk, Ok, length};
ghost use Rattle.mig_base.specs.DeviceTables.{is_22};
ghost use Rattle.mig_base.specs.Cells.{cells_of, AnswersCells};
ghost use Rattle.mig_base.specs.WellFormed.{IsWellFormed};
ghost use Rattle.mig_base.specs.Written22.{v22_fuses};

mod reading;
mod writing;

use devices::{SIGNATURE, push_states};
use mig_base::{ChipCells, ChipError, Fuses, Items, Kind, NoMemory};
use std::alloc::Global;

/// The fuses of a chip without signature fuses.
const SHORT: usize = 5828;

/// Whether a chip may have so many fuses: with or without its signature.
fn is_count(count: usize) -> bool
    ensures { result ≡ ((count == 5828) || (count == 5892)) }
{
    count == SHORT || count == SHORT + SIGNATURE
}

/// The cells that these fuses make. `Count` where there are neither 5,828 nor 5,892 of them.
pub fn cells(alloc: Global, kind: Kind, fuses: &Fuses) -> Result<ChipCells, ChipError>
    requires kind { IsTrue (is_22 kind) }
    requires few { length fuses.now.bits < 2 ^ 32 }
    ensures { AnswersCells result (cells_of kind fuses.now.bits) }
{
    let bits = fuses.bits.items();
    if !is_count(bits.len()) {
        return Err(ChipError::Count {
            found: bits.len() as u32,
        });
    }
    match reading::chip(alloc, kind, bits) {
        Ok(chip) => Ok(chip),
        Err(_) => Err(ChipError::Memory),
    }
}

/// The 5,892 fuses of these cells; those of the signature are 0. `cells` of them are the same cells again.
pub fn fuses_of(alloc: Global, cells: &ChipCells) -> Result<Fuses, NoMemory>
    requires kind { IsTrue (is_22 cells.now.kind) }
    requires well_formed { IsWellFormed cells.now }
    ensures written { IfOk result (λ fuses. fuses.bits ≡ v22_fuses cells.now) }
    ensures again { IfOk result (λ fuses. cells_of cells.now.kind fuses.bits ≡ Ok cells.now) }
{
    let mut bits = Vec::new(alloc);
    writing::push_array(alloc, cells, &mut bits)?;
    writing::push_settings(cells.cells.items(), &mut bits)?;
    push_states(SIGNATURE, false, &mut bits)?;
    Ok(Fuses {
        bits: Items::new(bits),
    })
}

#[cfg(test)]
mod tests;
