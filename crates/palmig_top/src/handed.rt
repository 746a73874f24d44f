ghost use Rattle.std.specs.Prelude.{◌≡◌, ◌≤◌, ℕ, List, Option, IfOk, vec_len};
ghost use Rattle.mig_base.specs.Limits.{most_file_bytes};
ghost use Rattle.plan_text.specs.PlanText.{IsPlan};
ghost use Rattle.verdicts.specs.HeldBoard.{plan_file};
ghost use Rattle.verdicts.specs.commands.Migrate.{plan_of, plan_held};
ghost use Rattle.palmig_top.specs.Steps.{Step, Finds};

use crate::loads::{Loaded, load, named};
use answers::{Exit, Refusal};
use mig_base::{MOST_FILE_BYTES, Plan, PlanError, Stem};
use mig_io::Files;
use plan_text::read_plan;
use std::alloc::Global;

/// The plan in a plan file.
fn plan_in(alloc: Global, file: Loaded) -> Result<Plan, Exit>
    requires { vec_len file.bytes ≤ most_file_bytes }
    ensures says { Finds (λ plan. plan) (λ q. plan_of file.name file.bytes.items ≡ q) result }
    ensures read { IfOk result (λ plan. IsPlan plan) }
{
    match read_plan(alloc, &file.bytes) {
        Ok(plan) => Ok(plan),
        Err(PlanError::Memory) => Err(Exit::Memory),
        Err(e) => Err(Exit::Refused(Refusal::PlanText(file.name, e))),
    }
}

/// Loads the handed plan.
pub fn read_handed_plan<F: Files>(alloc: Global, files: &mut F, stem: &Stem) -> Result<Plan, Exit>
    ensures step { Step (λ plan. plan) (λ h q. plan_held h (plan_file stem.now) ≡ q) (λ h f. f ≡ plan_file stem.now) (F.held files.old) (F.held files.new) (F.counts files.old) (F.counts files.new) result }
    ensures read { IfOk result (λ plan. IsPlan plan) }
{
    let name = named(alloc, stem, None, "plan")?;
    let file = load(alloc, files, name, MOST_FILE_BYTES)?;
    plan_in(alloc, file)
}
