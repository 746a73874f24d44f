ghost use Rattle.std.specs.Prelude.{◌≡◌, map, length, IfOk};
ghost use Rattle.fit.specs.NewChips.{rows_on as rows_of_chip, chip_with};

use crate::copies::copied_unit;
use avail::PlannedChip;
use mig_base::{Name, NoMemory, PlanChip};
use new_board::PlacedUnit;
use plans::Placing;
use std::alloc::Global;

/// The rows of the units that are placed on the chip of this name.
fn rows_on(
    alloc: Global,
    name: &Name,
    placed: &[Placing],
    rows: &[PlacedUnit],
) -> Result<Vec<PlacedUnit>, NoMemory>
    requires { length rows.now ≡ length placed.now }
    ensures { IfOk result (λ units. units.items ≡ rows_of_chip name.now placed.now rows.now) }
{
    let mut units = Vec::new(alloc);
    for (place, row) in rows.iter().enumerate() {
        let at = placed[place].chip.name;
        if at.bytes() == name.bytes() {
            units.push(copied_unit(alloc, row)?)?;
        }
    }
    Ok(units)
}

/// The new chip of a chip of the plan, with the rows of its units.
fn new_chip(
    alloc: Global,
    chip: &PlanChip,
    placed: &[Placing],
    rows: &[PlacedUnit],
) -> Result<PlannedChip, NoMemory>
    requires { length rows.now ≡ length placed.now }
    ensures { IfOk result (λ made. made ≡ chip_with placed.now rows.now chip.now) }
{
    let units = rows_on(alloc, &chip.name, placed, rows)?;
    Ok(PlannedChip {
        name: chip.name,
        kind: chip.kind,
        mode: chip.mode,
        units,
    })
}

/// The new chips of the chips of a plan, with the rows of their units.
pub(crate) fn new_chips(
    alloc: Global,
    chips: &[PlanChip],
    placed: &[Placing],
    rows: &[PlacedUnit],
) -> Result<Vec<PlannedChip>, NoMemory>
    requires { length rows.now ≡ length placed.now }
    ensures { IfOk result (λ made. made.items ≡ map (chip_with placed.now rows.now) chips.now) }
{
    let mut made = Vec::new(alloc);
    for chip in chips {
        made.push(new_chip(alloc, chip, placed, rows)?)?;
    }
    Ok(made)
}
