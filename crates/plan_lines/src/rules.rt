ghost use Rattle.std.specs.Prelude.{◌<◌, ◌^◌, length, IfOk};
ghost use Rattle.board.specs.Joined.{equations_of};
ghost use Rattle.plans.specs.FirstOf.{GivesFirst};
ghost use Rattle.plans.specs.Breaches.{RuleGives, line_rules};
ghost use Rattle.plan_lines.specs.Statements.{rule_of};

use crate::chips::first_chip_twice;
use crate::lines::{LineRule, first_line};
use crate::units::first_unplaced;
use board::Board;
use mig_base::{Breach, NoMemory, Plan};

/// The rules on place and absorb lines, in their order.
const LINE_RULES: [LineRule; 6] = [
    LineRule::UnitUnknown,
    LineRule::UnitTwice,
    LineRule::ChipUnknown,
    LineRule::NoCell,
    LineRule::PinTaken,
    LineRule::NotAbsorbable,
];

/// The breach of a plan's lines: what the first rule on lines, and on units that no line names, gives, if one is broken.
/// Fails for want of memory alone.
pub fn line_breach(board: &Board, plan: &Plan) -> Result<Option<Breach>, NoMemory>
    ensures { IfOk result (GivesFirst (RuleGives board.now plan.now) line_rules) }
{
    if board.units().len() > u32::MAX as usize {
        return Err(NoMemory);
    }
    Ok(first_breach(board, plan))
}

fn first_breach(board: &Board, plan: &Plan) -> Option<Breach>
    requires few { length (equations_of board.now).units < 2 ^ 32 }
    ensures { GivesFirst (RuleGives board.now plan.now) line_rules result }
{
    if let Some(breach) = first_chip_twice(plan.chips.items()) {
        return Some(breach);
    }
    if let Some(breach) = first_by_rules(board, plan, &LINE_RULES) {
        return Some(breach);
    }
    first_unplaced(board, plan)
}

/// What the first of these rules that is broken names.
fn first_by_rules(board: &Board, plan: &Plan, rules: &[LineRule]) -> Option<Breach>
    requires few { length (equations_of board.now).units < 2 ^ 32 }
    ensures { GivesFirst (λ r x. RuleGives board.now plan.now (rule_of r) x) rules.now result }
{
    for rule in rules {
        if let Some(breach) = first_line(board, plan, *rule) {
            return Some(breach);
        }
    }
    None
}
