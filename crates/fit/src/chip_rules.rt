//! The rules on new chips, their input pins and their rows; and their cells and wires, where none is broken.
ghost use Rattle.std.specs.Prelude.{◌≡◌, map, IfOk};
ghost use Rattle.plans.specs.FirstOf.{AreEach};
ghost use Rattle.plans.specs.Forms.{AreRows};
ghost use Rattle.plans.specs.Placings.{old as old_of, placings, absorbed_units};
ghost use Rattle.fit.specs.ChipAnswers.{IsRuled, IsChipAnswer};

use crate::chip_inputs::first_no_input;
use crate::fitting::fit;
use crate::marks::first_full_row;
use crate::new_chips::new_chips;
use avail::{Old, PlannedChip};
use board::Board;
use mig_base::{Breach, NoMemory, Plan};
use new_board::{FittedChip, PlacedUnit};
use plans::Placing;
use std::alloc::Global;

/// What the rules on new chips come to: the first that is broken, or the chips of the plan with their cells and wires.
#[derive(Drop)]
pub(crate) enum ChipRules {
    Breach(Breach),
    Fitted(Vec<FittedChip>),
}

/// The rules over these new chips.
fn ruled(
    alloc: Global,
    board: &Board,
    old: &Old,
    chips: &[PlannedChip],
    placed: &[Placing],
) -> Result<ChipRules, NoMemory>
    requires { old.now ≡ old_of board.now }
    ensures { IfOk result (IsRuled board.now chips.now placed.now) }
{
    if let Some(breach) = first_no_input(alloc, board, old, chips)? {
        return Ok(ChipRules::Breach(breach));
    }
    let (built, marks) = fit(alloc, old, chips)?;
    if let Some(breach) = first_full_row(marks.as_slice(), placed) {
        return Ok(ChipRules::Breach(breach));
    }
    Ok(ChipRules::Fitted(built))
}

/// The rules on the new chips of a plan, whose placed units have these rows: the first rule that is broken, or the chips
/// with their cells and wires, in plan order. Fails for want of memory alone.
pub(crate) fn chip_breach(
    alloc: Global,
    board: &Board,
    plan: &Plan,
    placed: &[Placing],
    rows: &[PlacedUnit],
) -> Result<ChipRules, NoMemory>
    requires placed { placed.now ≡ placings board.now plan.now }
    requires rows { AreEach (AreRows board.now (absorbed_units board.now plan.now)) (placings board.now plan.now) rows.now }
    ensures { IfOk result (IsChipAnswer board.now plan.now) }
{
    let old = Old::of_board(alloc, board)?;
    let chips = new_chips(alloc, plan.chips.items(), placed, rows)?;
    let answer = ruled(alloc, board, &old, chips.as_slice(), placed)?;
    Ok(answer)
}
