ghost use Rattle.std.specs.Prelude.{◌≡◌, ◌++◌, ◌∷◌, [], map, IfOk, OnOk};
ghost use Rattle.new_board.specs.NewFiles.{fitted};
ghost use Rattle.fit.specs.FullRows.{marks_of as marks_on};

use crate::marks::{ChipMarks, marks_of};
use avail::{Old, PlannedChip};
use mig_base::NoMemory;
use new_board::FittedChip;
use new_cells::Columns;
use std::alloc::Global;

/// Adds a new chip with its cells and wires, and its marks.
fn add_chip(
    alloc: Global,
    old: &Old,
    chip: &PlannedChip,
    built: &mut Vec<FittedChip>,
    marks: &mut Vec<ChipMarks>,
) -> Result<(), NoMemory>
    ensures built { OnOk result (built.new.items ≡ built.old.items ++ fitted old.now chip.now ∷ []) }
    ensures marks { OnOk result (marks.new.items ≡ marks.old.items ++ marks_on old.now chip.now ∷ []) }
{
    let columns = Columns::new(alloc, old, chip)?;
    built.push(columns.fitted(alloc)?)?;
    marks.push(marks_of(alloc, &columns)?)?;
    Ok(())
}

/// New chips with their cells and wires, and their marks.
pub(crate) fn fit(
    alloc: Global,
    old: &Old,
    chips: &[PlannedChip],
) -> Result<(Vec<FittedChip>, Vec<ChipMarks>), NoMemory>
    ensures built { IfOk result (λ made. made.0.items ≡ map (fitted old.now) chips.now) }
    ensures marks { IfOk result (λ made. made.1.items ≡ map (marks_on old.now) chips.now) }
{
    let mut built = Vec::new(alloc);
    let mut marks = Vec::new(alloc);
    for chip in chips {
        add_chip(alloc, old, chip, &mut built, &mut marks)?;
    }
    Ok((built, marks))
}
