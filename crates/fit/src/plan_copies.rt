ghost use Rattle.std.specs.Prelude.{◌≡◌, IfOk};

use mig_base::{Items, NoMemory, Plan, PlanChip, PlanLine};
use std::alloc::Global;

fn copied_chips(alloc: Global, chips: &[PlanChip]) -> Result<Items<PlanChip>, NoMemory>
    ensures { IfOk result (λ copy. copy ≡ chips.now) }
{
    let mut copy = Vec::with_capacity(alloc, chips.len())?;
    for chip in chips {
        copy.push(*chip)?;
    }
    Ok(Items::new(copy))
}

fn copied_lines(alloc: Global, lines: &[PlanLine]) -> Result<Items<PlanLine>, NoMemory>
    ensures { IfOk result (λ copy. copy ≡ lines.now) }
{
    let mut copy = Vec::with_capacity(alloc, lines.len())?;
    for line in lines {
        copy.push(*line)?;
    }
    Ok(Items::new(copy))
}

/// A copy of a plan.
pub(crate) fn copied_plan(alloc: Global, plan: &Plan) -> Result<Plan, NoMemory>
    ensures { IfOk result (λ copy. copy ≡ plan.now) }
{
    let chips = copied_chips(alloc, plan.chips.items())?;
    let lines = copied_lines(alloc, plan.lines.items())?;
    Ok(Plan { chips, lines })
}
