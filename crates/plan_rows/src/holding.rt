ghost use Rattle.std.specs.Prelude.{IfErr};
ghost use Rattle.breach_names.specs.NamedVariables.{NamesVariable};
ghost use Rattle.plan_rows.specs.Answers.{NamesOwn};

use crate::breaches::write_breach;
use crate::chips::write_chips;
use crate::faults::Fault;
use crate::loads::{load_board, load_plan};
use board::Board;
use breach_names::breaches_name_variables;
use fit::{FitError, Fitted, check_plan};
use mig_base::{Breach, Plan};
use std::alloc::Global;

/// What is printed of a plan that has no breach: its chips only where they are wanted.
fn told_chips(
    alloc: Global,
    board: &Board,
    fitted: &Fitted,
    wants_chips: bool,
) -> Result<String, Fault> {
    let mut text = String::new(alloc);
    if wants_chips {
        write_chips(alloc, &mut text, board.net(), fitted.chips.items())?;
    } else {
        text.push_str("none\n")?;
    }
    Ok(text)
}

/// What is printed of a breach.
fn told_breach(alloc: Global, board: &Board, breach: Breach) -> Result<String, Fault>
    requires { NamesVariable board.now breach }
{
    let mut text = String::new(alloc);
    write_breach(&mut text, board, breach)?;
    Ok(text)
}

/// What is printed of the check of a plan.
fn told(
    alloc: Global,
    board: &Board,
    checked: Result<Fitted, FitError>,
    wants_chips: bool,
) -> Result<String, Fault>
    requires { IfErr checked (NamesOwn board.now) }
{
    match checked {
        Ok(fitted) => told_chips(alloc, board, &fitted, wants_chips),
        Err(FitError::Breach(breach)) => told_breach(alloc, board, breach),
        Err(FitError::Memory) => Err(Fault::Memory),
    }
}

/// What is printed of a plan for a board.
fn checked(alloc: Global, board: &Board, plan: &Plan, wants_chips: bool) -> Result<String, Fault> {
    breaches_name_variables();
    let checked = check_plan(alloc, board, plan);
    told(alloc, board, checked, wants_chips)
}

/// Holds the plan of a file against the board of others, and gives what is printed: the new chips only where they are wanted.
pub fn held(rt: &HostRuntime, board: &str, plan: &str, wants_chips: bool) -> Result<String, Fault> {
    let board = load_board(rt, board)?;
    let plan = load_plan(rt, plan)?;
    checked(rt.alloc(), &board, &plan, wants_chips)
}
