ghost use Rattle.std.specs.Prelude.{◌<◌, ◌^◌, length, IfOk};
ghost use Rattle.plan_text.specs.PlanText.{plan_of_text, IsPlan};
ghost use Rattle.plan_text.specs.Statements.{Answers};

use crate::judging::{any_ends, judged};
use crate::lines::said_lines;
use mig_base::{Plan, PlanError};
use std::alloc::Global;

/// The plan that a plan text says, or the first refusal.
///
/// # Errors
/// The refusal of the first line that fails, with its number from 1; `NoEnd` where none fails and there is no `end`;
/// `Memory`.
pub fn read_plan(alloc: Global, bytes: &[u8]) -> Result<Plan, PlanError>
    requires { length bytes.now < 2 ^ 32 }
    ensures answer { Answers (plan_of_text bytes.now) result }
    ensures plan { IfOk result IsPlan }
{
    let Ok(lines) = said_lines(alloc, bytes) else {
        return Err(PlanError::Memory);
    };
    let plan = judged(alloc, lines.as_slice())?;
    if !any_ends(lines.as_slice()) {
        return Err(PlanError::NoEnd);
    }
    Ok(plan)
}
