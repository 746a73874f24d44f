ghost use Rattle.std.specs.Prelude.{◌≡◌, IfOk};
ghost use Rattle.plans.specs.FirstOf.{GivesFirst, Says};
ghost use Rattle.plans.specs.Placings.{old as old_of};
ghost use Rattle.fit.specs.NewChips.{no_input as input_breach};

use avail::{Old, PlannedChip};
use board::Board;
use mig_base::{Breach, NoMemory};
use new_cells::Columns;
use std::alloc::Global;

/// The breach of a new chip whose rows need a variable that no column reads: it names the first such variable.
fn no_input(
    alloc: Global,
    board: &Board,
    old: &Old,
    chip: &PlannedChip,
) -> Result<Option<Breach>, NoMemory>
    requires { old.now ≡ old_of board.now }
    ensures { IfOk result (λ breach. breach ≡ input_breach board.now chip.now) }
{
    let columns = Columns::new(alloc, old, chip)?;
    match columns.first_unserved() {
        Some(variable) => Ok(Some(Breach::NoInput {
            chip: chip.name,
            variable: board.var(variable),
        })),
        None => Ok(None),
    }
}

/// That of the first of these chips that has one.
pub(crate) fn first_no_input(
    alloc: Global,
    board: &Board,
    old: &Old,
    chips: &[PlannedChip],
) -> Result<Option<Breach>, NoMemory>
    requires { old.now ≡ old_of board.now }
    ensures { IfOk result (GivesFirst (Says (input_breach board.now)) chips.now) }
{
    for chip in chips {
        if let Some(breach) = no_input(alloc, board, old, chip)? {
            return Ok(Some(breach));
        }
    }
    Ok(None)
}
