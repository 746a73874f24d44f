ghost use Rattle.std.specs.Prelude.{◌≡◌, ℕ, List, Option, Some, IfOk, IfErr, MatchResult};
ghost use Rattle.fit.specs.Answers.{RefusesPlan};
ghost use Rattle.breach_names.specs.NamedVariables.{NamesVariable};
ghost use Rattle.plan_text.specs.PlanText.{IsPlan};
ghost use Rattle.plans.specs.Breaches.{HasNoBreach};
ghost use Rattle.plans.specs.Fitting.{AreFitted};
ghost use Rattle.verdicts.specs.HeldBoard.{plan_file};
ghost use Rattle.verdicts.specs.commands.Migrate.{MigratesBy, PlansTo, lacked as lacked_by, breached as breached_by, built as built_by};
ghost use Rattle.palmig_top.specs.Steps.{Step, Finds, IsEnd};
ghost use Rattle.palmig_top.specs.Preparing.{outcome_in};

use crate::handed::read_handed_plan;
use crate::new_files::{done_report, new_files};
use crate::prepared::Prepared;
use answers::{Exit, Migration, breached};
use board::Board;
use fit::{FitError, Fitted, check_plan};
use mig_base::{Breach, Items, Node, Plan, Stem};
use mig_io::Files;
use plan_build::build;
use std::alloc::Global;

/// The name of the signal that gets no pin, where the breach names one.
fn lacked(board: &Board, breach: Breach) -> Option<Node>
    requires { NamesVariable board.now breach }
    ensures { result ≡ lacked_by board.now breach }
{
    match breach {
        Breach::NoInput { variable, .. } => Some(board.node(variable)),
        _ => None,
    }
}

/// A plan with a breach: nothing is saved, and the breach is told.
fn refused(alloc: Global, board: &Board, breach: Breach) -> Result<Prepared, Exit>
    requires { NamesVariable board.now breach }
    ensures { MatchResult result (λ p. outcome_in p ≡ breached_by board.now breach) (λ e. e ≡ Exit.Memory) }
{
    let node = lacked(board, breach);
    let report = breached(alloc, node.as_ref(), &breach)?;
    Ok(Prepared {
        answer: Exit::Breached(breach),
        saves: Items::new(Vec::new(alloc)),
        report,
    })
}

/// A plan without breach: its files, and the numbers of chips.
fn built(alloc: Global, new: &Stem, board: &Board, fitted: Fitted) -> Result<Prepared, Exit>
    requires plan { IsPlan fitted.plan }
    requires free { HasNoBreach board.now fitted.plan }
    requires chips { AreFitted board.now fitted.plan fitted.chips }
    ensures { MatchResult result (λ p. outcome_in p ≡ built_by new.now board.now fitted.plan fitted.chips) (λ e. e ≡ Exit.Memory) }
{
    let files = build(alloc, board, &fitted)?;
    let saves = new_files(alloc, new, files)?;
    let old_count = board.net().chips.items().len();
    let report = done_report(alloc, old_count, fitted.chips.items().len())?;
    Ok(Prepared {
        answer: Exit::Done,
        saves: Items::new(saves),
        report,
    })
}

/// What a plan comes to that was held against the rules.
fn judged(
    alloc: Global,
    new: &Stem,
    board: &Board,
    plan: &Plan,
    checked: Result<Fitted, FitError>,
) -> Result<Prepared, Exit>
    requires read { IsPlan plan.now }
    requires free { IfOk checked (λ fitted. HasNoBreach board.now plan.now) }
    requires chips { IfOk checked (λ fitted. AreFitted board.now plan.now fitted.chips) }
    requires plan { IfOk checked (λ fitted. fitted.plan ≡ plan.now) }
    requires refused { IfErr checked (RefusesPlan board.now plan.now) }
    ensures { Finds outcome_in (PlansTo new.now board.now plan.now) result }
{
    match checked {
        Ok(fitted) => built(alloc, new, board, fitted),
        Err(FitError::Breach(breach)) => refused(alloc, board, breach),
        Err(FitError::Memory) => Err(Exit::Memory),
    }
}

/// What a plan comes to: its breach, or its files.
fn planned(alloc: Global, new: &Stem, board: &Board, plan: &Plan) -> Result<Prepared, Exit>
    requires { IsPlan plan.now }
    ensures { Finds outcome_in (PlansTo new.now board.now plan.now) result }
{
    let checked = check_plan(alloc, board, plan);
    judged(alloc, new, board, plan, checked)
}

/// Loads the handed plan, and says what it comes to.
pub fn by_plan<F: Files>(
    alloc: Global,
    files: &mut F,
    migration: &Migration,
    stem: &Stem,
    board: &Board,
) -> Result<Prepared, Exit>
    ensures step { Step outcome_in (λ h q. MigratesBy migration.now (Some stem.now) h board.now q) (λ h f. f ≡ plan_file stem.now) (F.held files.old) (F.held files.new) (F.counts files.old) (F.counts files.new) result }
    ensures end { IfOk result (λ p. IsEnd (outcome_in p)) }
{
    let plan = read_handed_plan(alloc, files, stem)?;
    planned(alloc, &migration.new, board, &plan)
}
