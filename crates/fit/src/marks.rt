ghost use Rattle.std.specs.Prelude.{◌≡◌, IfOk};
ghost use Rattle.plans.specs.FirstOf.{GivesFirst, Says};
ghost use Rattle.fit.specs.FullRows.{marks_of as marks_on, full_at, full_on, full_row as row_breach};

use mig_base::{Breach, Items, Name, NoMemory};
use new_cells::Columns;
use plans::Placing;
use std::alloc::Global;

/// A unit of a new chip: its pin, and whether a row of it, or the reset or preset row of its chip, would have every fuse
/// intact.
#[derive(Clone, Copy)]
pub(crate) struct UnitMark {
    pub(crate) pin: u8,
    pub(crate) full: bool,
}

/// A new chip by its name, with the marks of its units.
#[derive(Drop)]
pub(crate) struct ChipMarks {
    pub(crate) name: Name,
    pub(crate) units: Items<UnitMark>,
}

/// The marks of a new chip.
pub(crate) fn marks_of(alloc: Global, columns: &Columns) -> Result<ChipMarks, NoMemory>
    ensures { IfOk result (λ marks. marks ≡ marks_on columns.now.nets.old.now columns.now.nets.chip.now) }
{
    let chip = columns.nets.chip;
    let mut units = Vec::new(alloc);
    for unit in &chip.units {
        let full = columns.has_full_row(alloc, unit)?;
        units.push(UnitMark {
            pin: unit.pin,
            full,
        })?;
    }
    Ok(ChipMarks {
        name: chip.name,
        units: Items::new(units),
    })
}

/// Whether the first of these units that stands on a pin has a full row.
fn is_full_at(units: &[UnitMark], pin: u8) -> bool
    ensures { result ≡ full_at units.now pin }
{
    for unit in units {
        if unit.pin == pin {
            return unit.full;
        }
    }
    false
}

/// Whether the unit on a pin of the first chip of this name has one.
fn is_full_on(chips: &[ChipMarks], name: &Name, pin: u8) -> bool
    ensures { result ≡ full_on chips.now name.now pin }
{
    for chip in chips {
        if chip.name.bytes() == name.bytes() {
            return is_full_at(chip.units.items(), pin);
        }
    }
    false
}

/// The breach of a placed unit with a full row.
fn full_row(chips: &[ChipMarks], unit: &Placing) -> Option<Breach>
    ensures { result ≡ row_breach chips.now unit.now }
{
    if is_full_on(chips, &unit.chip.name, unit.pin) {
        Some(Breach::FullRow { unit: unit.name })
    } else {
        None
    }
}

/// That of the first of these units that has one.
pub(crate) fn first_full_row(chips: &[ChipMarks], placed: &[Placing]) -> Option<Breach>
    ensures { GivesFirst (Says (row_breach chips.now)) placed.now result }
{
    for unit in placed {
        if let Some(breach) = full_row(chips, unit) {
            return Some(breach);
        }
    }
    None
}
