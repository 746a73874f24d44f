ghost use Rattle.std.specs.Prelude.{◌≡◌, ◌<◌, ◌^◌, length, [], ◌==◌, ◌&&◌};
ghost use Rattle.std.specs.List.{list_any};
ghost use Rattle.board.specs.Joined.{equations_of};
ghost use Rattle.plans.specs.FirstOf.{Gives, GivesFirst, behind};
ghost use Rattle.plans.specs.LineBreaches as spec;
ghost use Rattle.plan_lines.specs.Statements.{LineGives};

use crate::chips::{chip_named, has_no_cell};
use crate::units::{is_listed, named_by, not_absorbable, unit_named};
use board::Board;
use mig_base::{Breach, Name, Plan, PlanLine};

/// A rule on place and absorb lines.
#[derive(Clone, Copy)]
pub(crate) enum LineRule {
    UnitUnknown,
    UnitTwice,
    ChipUnknown,
    NoCell,
    PinTaken,
    NotAbsorbable,
}

/// The breach of the first line that breaks a rule.
pub(crate) fn first_line(board: &Board, plan: &Plan, rule: LineRule) -> Option<Breach>
    requires few { length (equations_of board.now).units < 2 ^ 32 }
    ensures { GivesFirst (LineGives board.now plan.now rule) (behind [] plan.now.lines) result }
{
    let lines = plan.lines.items();
    for (i, line) in lines.iter().enumerate() {
        if let Some(breach) = line_gives(board, plan, rule, &lines[..i], line) {
            return Some(breach);
        }
    }
    None
}

/// The breach of a line behind these, where it breaks the rule.
fn line_gives(
    board: &Board,
    plan: &Plan,
    rule: LineRule,
    before: &[PlanLine],
    line: &PlanLine,
) -> Option<Breach>
    requires few { length (equations_of board.now).units < 2 ^ 32 }
    ensures { Gives (LineGives board.now plan.now rule) (before.now, line.now) result }
{
    match rule {
        LineRule::UnitUnknown => unit_unknown(board, line),
        LineRule::UnitTwice => unit_twice(before, line),
        LineRule::ChipUnknown => chip_unknown(plan, line),
        LineRule::NoCell => no_cell(plan, line),
        LineRule::PinTaken => pin_taken(before, line),
        LineRule::NotAbsorbable => absorbs_other(board, line),
    }
}

fn unit_unknown(board: &Board, line: &PlanLine) -> Option<Breach>
    ensures { result ≡ spec.unit_unknown board.now line.now }
{
    let unit = named_by(line);
    if unit_named(board, &unit).is_none() {
        Some(Breach::UnitUnknown { unit })
    } else {
        None
    }
}

fn unit_twice(before: &[PlanLine], line: &PlanLine) -> Option<Breach>
    ensures { result ≡ spec.unit_twice (before.now, line.now) }
{
    let unit = named_by(line);
    if is_listed(before, &unit) {
        Some(Breach::UnitTwice { unit })
    } else {
        None
    }
}

fn chip_unknown(plan: &Plan, line: &PlanLine) -> Option<Breach>
    ensures { result ≡ spec.chip_unknown plan.now line.now }
{
    match line {
        PlanLine::Place { unit, chip, .. } => {
            if chip_named(plan.chips.items(), chip).is_none() {
                Some(Breach::ChipUnknown {
                    unit: *unit,
                    chip: *chip,
                })
            } else {
                None
            }
        }
        PlanLine::Absorb { .. } => None,
    }
}

fn no_cell(plan: &Plan, line: &PlanLine) -> Option<Breach>
    ensures { result ≡ spec.no_cell plan.now line.now }
{
    match line {
        PlanLine::Place { unit, chip, pin } => {
            if has_no_cell(chip_named(plan.chips.items(), chip), *pin) {
                Some(Breach::NoCell {
                    unit: *unit,
                    pin: *pin,
                })
            } else {
                None
            }
        }
        PlanLine::Absorb { .. } => None,
    }
}

fn pin_taken(before: &[PlanLine], line: &PlanLine) -> Option<Breach>
    ensures { result ≡ spec.pin_taken (before.now, line.now) }
{
    match line {
        PlanLine::Place { unit, chip, pin } => {
            if any_takes(before, chip, *pin) {
                Some(Breach::PinTaken {
                    unit: *unit,
                    pin: *pin,
                })
            } else {
                None
            }
        }
        PlanLine::Absorb { .. } => None,
    }
}

fn any_takes(lines: &[PlanLine], chip: &Name, pin: u8) -> bool
    ensures { result ≡ list_any (spec.takes_pin chip.now pin) lines.now }
{
    lines.iter().any(|l| takes_pin(chip, pin, l))
}

fn takes_pin(name: &Name, other: u8, line: &PlanLine) -> bool
    ensures { result ≡ spec.takes_pin name.now other line.now }
{
    match line {
        PlanLine::Place { chip, pin, .. } => chip.bytes() == name.bytes() && *pin == other,
        PlanLine::Absorb { .. } => false,
    }
}

fn absorbs_other(board: &Board, line: &PlanLine) -> Option<Breach>
    requires few { length (equations_of board.now).units < 2 ^ 32 }
    ensures { Gives (spec.GivesNotAbsorbable board.now) line.now result }
{
    match line {
        PlanLine::Place { .. } => None,
        PlanLine::Absorb { unit } => not_absorbable(board, unit),
    }
}
