ghost use Rattle.std.specs.Prelude.{◌≡◌, IfOk};
ghost use Rattle.mig_base.specs.Given.{IsGiven};
ghost use Rattle.plans.specs.Breaches.{RuleGives, line_rules, placed_rules, all_rules};
ghost use Rattle.plans.specs.FirstOf.{NoneOf};
ghost use Rattle.plans.specs.Placings.{placings as placings_of};
ghost use Rattle.fit.specs.UnitAnswers.{AreFreeRows};
ghost use Rattle.fit.specs.Answers.{IsAnswer};

use crate::chip_rules::{ChipRules, chip_breach};
use crate::unit_rules::{UnitRules, unit_breach};
use board::Board;
use mig_base::{NoMemory, Plan};
use new_board::PlacedUnit;
use plan_lines::{absorbed_units, line_breach, placings};
use plans::Placing;
use std::alloc::Global;

/// The rules on new chips, where no rule on placed units is broken.
fn row_chips(
    alloc: Global,
    board: &Board,
    plan: &Plan,
    placed: &[Placing],
    rows: &[PlacedUnit],
) -> Result<ChipRules, NoMemory>
    requires placed { placed.now ≡ placings_of board.now plan.now }
    requires rows { AreFreeRows board.now plan.now rows.now }
    ensures { IfOk result (IsAnswer board.now plan.now placed_rules) }
{
    let answer = chip_breach(alloc, board, plan, placed, rows)?;
    Ok(answer)
}

/// The rules on placed units and new chips, where no rule on lines is broken.
fn placed_chips(alloc: Global, board: &Board, plan: &Plan) -> Result<ChipRules, NoMemory>
    requires given { IsGiven board.now.net board.now.chips }
    requires lines { NoneOf (RuleGives board.now plan.now) line_rules }
    ensures { IfOk result (IsAnswer board.now plan.now placed_rules) }
{
    let placed = placings(alloc, board, plan)?;
    let absorbed = absorbed_units(alloc, board, plan)?;
    match unit_breach(alloc, board, plan, placed.as_slice(), absorbed.as_slice())? {
        UnitRules::Breach(breach) => Ok(ChipRules::Breach(breach)),
        UnitRules::Rows(rows) => row_chips(alloc, board, plan, placed.as_slice(), rows.as_slice()),
    }
}

/// The wiring and the chips of a board are such as make one.
fn given_board(board: &Board)
    ensures { IsGiven board.now.net board.now.chips }
{
    board.net();
}

/// All rules, in their order.
pub(crate) fn checked(alloc: Global, board: &Board, plan: &Plan) -> Result<ChipRules, NoMemory>
    ensures { IfOk result (IsAnswer board.now plan.now all_rules) }
{
    if let Some(breach) = line_breach(board, plan)? {
        return Ok(ChipRules::Breach(breach));
    }
    given_board(board);
    let answer = placed_chips(alloc, board, plan)?;
    Ok(answer)
}
