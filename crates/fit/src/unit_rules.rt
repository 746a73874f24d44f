//! The rules on placed units: their modes, clocks and phases, and what their parts come to on their cells.
ghost use Rattle.std.specs.Prelude.{◌≡◌, IfOk};
ghost use Rattle.joiner.specs.AbsorbedNets.{AreAbsorbable};
ghost use Rattle.plans.specs.FirstOf.{NoneOf, GivesFirst};
ghost use Rattle.plans.specs.Placings.{placings, absorbed_units};
ghost use Rattle.plans.specs.Breaches.{RuleGives};
ghost use Rattle.fit.specs.UnitAnswers.{IsUnitAnswer, place_rules, part_rules};
ghost use Rattle.fit.specs.Parts.{AreAllParts};

use crate::breaks::broken_part;
use crate::parts::{UnitParts, reckon};
use crate::placed::Placed;
use crate::places::first_by_places;
use crate::rows::rows_of;
use avail::Old;
use board::Board;
use mig_base::{Breach, NoMemory, Plan};
use new_board::PlacedUnit;
use plans::Placing;
use std::alloc::Global;

/// What the rules on placed units come to: what the first rule that is broken names, or the rows of all placed units.
#[derive(Drop)]
pub(crate) enum UnitRules {
    Breach(Breach),
    Rows(Vec<PlacedUnit>),
}

/// Holds a plan's placed units, in unit order, and its absorbed ones, rising, which may be absorbed, against the rules on placed
/// units: from their modes to the terms of their cells. Each part is reckoned once, and none where a mode, a clock net or a phase is
/// wrong. Fails for want of memory alone.
pub(crate) fn unit_breach(
    alloc: Global,
    board: &Board,
    plan: &Plan,
    placed: &[Placing],
    absorbed: &[u32],
) -> Result<UnitRules, NoMemory>
    requires placed { placed.now ≡ placings board.now plan.now }
    requires absorbed { absorbed.now ≡ absorbed_units board.now plan.now }
    requires absorbable { AreAbsorbable board.now absorbed.now }
    ensures { IfOk result (IsUnitAnswer board.now plan.now) }
{
    let placed = Placed::new(board, plan, placed);
    if let Some(breach) = first_by_places(&placed) {
        return Ok(UnitRules::Breach(breach));
    }
    part_breach(alloc, &placed, absorbed)
}

/// The same where no mode, clock net or phase is wrong.
fn part_breach<'a>(
    alloc: Global,
    placed: &'a Placed<'a>,
    absorbed: &[u32],
) -> Result<UnitRules, NoMemory>
    requires absorbed { absorbed.now ≡ absorbed_units placed.now.board.now placed.now.plan.now }
    requires absorbable { AreAbsorbable placed.now.board.now absorbed.now }
    requires free { NoneOf (RuleGives placed.now.board.now placed.now.plan.now) place_rules }
    ensures { IfOk result (IsUnitAnswer placed.now.board.now placed.now.plan.now) }
{
    let parts = reckon(alloc, placed.board, placed, absorbed)?;
    match first_broken_part(alloc, placed, parts.as_slice())? {
        Some(breach) => Ok(UnitRules::Breach(breach)),
        None => Ok(UnitRules::Rows(rows_of(alloc, placed, parts.as_slice())?)),
    }
}

/// What the first rule on parts that is broken names, where placed units have these parts. Fails for want of memory alone.
fn first_broken_part<'a>(
    alloc: Global,
    placed: &'a Placed<'a>,
    parts: &[UnitParts],
) -> Result<Option<Breach>, NoMemory>
    requires { AreAllParts placed.now.board.now placed.now.plan.now parts.now }
    ensures { IfOk result (GivesFirst (RuleGives placed.now.board.now placed.now.plan.now) part_rules) }
{
    let old = Old::of_board(alloc, placed.board)?;
    Ok(broken_part(placed, &old, parts))
}
