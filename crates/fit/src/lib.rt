//! A plan held against all rules: its breach, or its chips with their cells and wires.
#![tactic(auto)]

mod breaks;
mod checking;
mod chip_inputs;
mod chip_rules;
mod copies;
mod fitting;
mod marks;
mod new_chips;
mod parts;
mod placed;
mod places;
mod plan_copies;
mod rows;
mod sharing;
mod unit_rules;

ghost use Rattle.std.specs.Prelude.{◌≡◌, IfOk, IfErr};
ghost use Rattle.plans.specs.Breaches.{HasNoBreach};
ghost use Rattle.plans.specs.Fitting.{AreFitted};
ghost use Rattle.fit.specs.Answers.{RefusesPlan, IsWanting};

use crate::checking::checked;
use crate::chip_rules::ChipRules;
use crate::plan_copies::copied_plan;
use board::Board;
use mig_base::{Breach, Items, NoMemory, Plan};
use new_board::FittedChip;
use std::alloc::Global;

/// A plan without breach, with its chips in plan order: their cells, and their pins that have a line.
#[derive(Drop)]
pub struct Fitted {
    pub chips: Items<FittedChip>,
    pub plan: Plan,
}

/// Why a plan isn't fitted: what the first rule that it breaks names, or want of memory.
#[derive(Clone, Copy)]
pub enum FitError {
    Breach(Breach),
    Memory,
}

/// These chips, with a copy of the plan.
fn with_plan(alloc: Global, plan: &Plan, chips: Vec<FittedChip>) -> Result<Fitted, FitError>
    ensures chips { IfOk result (λ fitted. fitted.chips ≡ chips.items) }
    ensures plan { IfOk result (λ fitted. fitted.plan ≡ plan.now) }
    ensures refused { IfErr result IsWanting }
{
    match copied_plan(alloc, plan) {
        Ok(plan) => Ok(Fitted {
            chips: Items::new(chips),
            plan,
        }),
        Err(NoMemory) => Err(FitError::Memory),
    }
}

/// Holds a plan against the eighteen rules, in their order. Where it breaks none: its chips with their cells and wires. `Breach` has
/// what the first rule names that is broken.
pub fn check_plan(alloc: Global, board: &Board, plan: &Plan) -> Result<Fitted, FitError>
    ensures free { IfOk result (λ fitted. HasNoBreach board.now plan.now) }
    ensures chips { IfOk result (λ fitted. AreFitted board.now plan.now fitted.chips) }
    ensures plan { IfOk result (λ fitted. fitted.plan ≡ plan.now) }
    ensures refused { IfErr result (RefusesPlan board.now plan.now) }
{
    match checked(alloc, board, plan) {
        Ok(ChipRules::Breach(breach)) => Err(FitError::Breach(breach)),
        Ok(ChipRules::Fitted(chips)) => with_plan(alloc, plan, chips),
        Err(NoMemory) => Err(FitError::Memory),
    }
}
