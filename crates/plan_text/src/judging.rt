ghost use Rattle.std.specs.Prelude.{◌≡◌, ◌∷◌, ◌++◌, [], OnOk, ◌==◌, length};
ghost use Rattle.plan_text.specs.PlanText as spec;
ghost use Rattle.plan_text.specs.Statements.{Judges};

use crate::lines::SaidLine;
use crate::says::Said;
use mig_base::{Items, MOST_CHIPS, MOST_PLAN_LINES, Plan, PlanChip, PlanError, PlanLine};
use std::alloc::{AllocError, Global};

/// The plan of the lines, each judged by those before it, or the first refusal.
pub(crate) fn judged(alloc: Global, lines: &[SaidLine]) -> Result<Plan, PlanError>
    ensures { Judges lines.now result }
{
    let mut chips = Vec::new(alloc);
    let mut units = Vec::new(alloc);
    for (i, line) in lines.iter().enumerate() {
        if let Some(error) = refusal(&lines[..i], chips.as_slice(), units.as_slice(), line) {
            return Err(error);
        }
        if keep_chip(&mut chips, line).is_err() || keep_unit(&mut units, line).is_err() {
            return Err(PlanError::Memory);
        }
    }
    Ok(Plan {
        chips: Items::new(chips),
        lines: Items::new(units),
    })
}

/// What is wrong with a line behind these, which say these chips and these place and absorb lines.
fn refusal(
    before: &[SaidLine],
    chips: &[PlanChip],
    units: &[PlanLine],
    line: &SaidLine,
) -> Option<PlanError>
    requires chips_said { chips.now ≡ spec.chips_in before.now }
    requires units_said { units.now ≡ spec.units_in before.now }
    ensures { result ≡ spec.line_refusal before.now line.now }
{
    if !may_stand(before, units, &line.says) {
        return Some(PlanError::Line { n: line.n });
    }
    said_refusal(before, chips, units, line)
}

/// Whether a line may stand behind these.
fn may_stand(before: &[SaidLine], units: &[PlanLine], said: &Said) -> bool
    requires { units.now ≡ spec.units_in before.now }
    ensures { result ≡ spec.may_stand before.now said.now }
{
    match said {
        Said::Head => before.is_empty(),
        Said::Chip { .. } | Said::OtherKind => is_open(before) && units.is_empty(),
        Said::Place { .. } | Said::Absorb { .. } | Said::End | Said::Wrong => is_open(before),
    }
}

/// Whether the text has begun and has not ended.
fn is_open(before: &[SaidLine]) -> bool
    ensures { result ≡ spec.is_open before.now }
{
    !before.is_empty() && !any_ends(before)
}

/// Whether one of the lines ends the text.
pub(crate) fn any_ends(lines: &[SaidLine]) -> bool
    ensures { result ≡ spec.any_ends lines.now }
{
    lines.iter().any(|l| ends(&l.says))
}

fn ends(said: &Said) -> bool
    ensures { result ≡ spec.ends said.now }
{
    match said {
        Said::End => true,
        _ => false,
    }
}

/// What is wrong with a line that may stand behind these.
fn said_refusal(
    before: &[SaidLine],
    chips: &[PlanChip],
    units: &[PlanLine],
    line: &SaidLine,
) -> Option<PlanError>
    requires chips_said { chips.now ≡ spec.chips_in before.now }
    requires units_said { units.now ≡ spec.units_in before.now }
    ensures { result ≡ spec.said_refusal line.now.n before.now line.now.says }
{
    let n = line.n;
    match line.says {
        Said::Wrong => Some(PlanError::Line { n }),
        Said::OtherKind => Some(PlanError::KindUnknown { n }),
        Said::Chip { .. } => refuse(chips.len() >= MOST_CHIPS, PlanError::ChipsOver { n }),
        Said::Place { .. } | Said::Absorb { .. } => {
            refuse(units.len() >= MOST_PLAN_LINES, PlanError::LinesOver { n })
        }
        Said::Head | Said::End => None,
    }
}

/// The error, where something is wrong.
fn refuse(wrong: bool, error: PlanError) -> Option<PlanError>
    ensures { result ≡ spec.refuse wrong error }
{
    wrong.then_some(error)
}

fn keep_chip(chips: &mut Vec<PlanChip>, line: &SaidLine) -> Result<(), AllocError>
    ensures { OnOk result (chips.new.items ≡ chips.old.items ++ spec.chips_in (line.now ∷ [])) }
{
    if let Said::Chip { chip } = line.says {
        chips.push(chip)?;
    }
    Ok(())
}

fn keep_unit(units: &mut Vec<PlanLine>, line: &SaidLine) -> Result<(), AllocError>
    ensures { OnOk result (units.new.items ≡ units.old.items ++ spec.units_in (line.now ∷ [])) }
{
    if let Some(unit) = unit_said(&line.says) {
        units.push(unit)?;
    }
    Ok(())
}

/// What a line says of an old unit.
fn unit_said(said: &Said) -> Option<PlanLine>
    ensures { result ≡ spec.unit_said said.now }
{
    match said {
        Said::Place { unit, at } => Some(PlanLine::Place {
            unit: *unit,
            chip: at.chip,
            pin: at.pin,
        }),
        Said::Absorb { unit } => Some(PlanLine::Absorb { unit: *unit }),
        _ => None,
    }
}
