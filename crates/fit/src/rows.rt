ghost use Rattle.std.specs.Prelude.{◌≡◌, true, length, IfOk};
ghost use Rattle.std.specs.List.{AllByRecursion};
ghost use Rattle.plans.specs.FirstOf.{AreEach, NoneOf};
ghost use Rattle.plans.specs.Breaches.{RuleGives};
ghost use Rattle.plans.specs.Forms.{AreRows};
ghost use Rattle.plans.specs.Placings.{placings, absorbed_units};
ghost use Rattle.fit.specs.UnitAnswers.{part_rules};
ghost use Rattle.fit.specs.Parts.{AreAllParts};
ghost use Rattle.fit.specs.Rows.{is_clear, is_fitting, is_row, logic_by, gate_by, row_by, rows_by};

use crate::copies::{copied_terms, product_gate};
use crate::parts::UnitParts;
use crate::placed::Placed;
use forms::{Control, Form, Products};
use mig_base::{Gate, NoMemory};
use new_board::PlacedUnit;
use plans::Placing;
use std::alloc::Global;

/// The rows of all placed units, whose parts break no rule. Fails for want of memory alone.
pub(crate) fn rows_of(
    alloc: Global,
    placed: &Placed,
    parts: &[UnitParts],
) -> Result<Vec<PlacedUnit>, NoMemory>
    requires parts { AreAllParts placed.now.board.now placed.now.plan.now parts.now }
    requires free { NoneOf (RuleGives placed.now.board.now placed.now.plan.now) part_rules }
    ensures { IfOk result (λ rows. AreEach (AreRows placed.now.board.now (absorbed_units placed.now.board.now placed.now.plan.now)) (placings placed.now.board.now placed.now.plan.now) rows.items) }
{
    clear_rows(alloc, placed.units, parts)
}

/// The rows of units whose parts are clear.
fn clear_rows(
    alloc: Global,
    units: &[Placing],
    parts: &[UnitParts],
) -> Result<Vec<PlacedUnit>, NoMemory>
    requires count { length units.now ≡ length parts.now }
    requires clear { AllByRecursion (λ p. is_clear p ≡ true) parts.now }
    ensures { IfOk result (λ rows. rows.items ≡ rows_by units.now parts.now) }
{
    let mut rows = Vec::with_capacity(alloc, units.len())?;
    for (i, unit) in units.iter().enumerate() {
        rows.push(row_of(alloc, unit, &parts[i])?)?;
    }
    Ok(rows)
}

/// The rows of a placed unit whose Logic has a form and whose other parts have one product at most.
fn row_of(alloc: Global, unit: &Placing, parts: &UnitParts) -> Result<PlacedUnit, NoMemory>
    requires { is_clear parts.now ≡ true }
    ensures { IfOk result (λ row. row ≡ row_by unit.now parts.now) }
{
    let (low, terms) = sum_of(alloc, &parts.logic)?;
    let enable = gate_of(alloc, &parts.enable)?;
    let reset = gate_of(alloc, &parts.reset)?;
    let preset = gate_of(alloc, &parts.preset)?;
    Ok(PlacedUnit {
        pin: unit.pin,
        unit: unit.unit,
        low,
        terms,
        enable,
        reset,
        preset,
    })
}

/// The sum of a form that fits, and whether it is inverted.
fn sum_of(alloc: Global, form: &Form) -> Result<(bool, Products), NoMemory>
    requires { is_fitting form.now ≡ true }
    ensures low { IfOk result (λ sum. sum.0 ≡ (logic_by form.now).low) }
    ensures terms { IfOk result (λ sum. sum.1 ≡ (logic_by form.now).terms) }
{
    match form {
        Form::Fits { low, terms } => Ok((*low, copied_terms(alloc, terms.items())?)),
        Form::Wide { .. } | Form::PrimesOver | Form::TermsOver { .. } => unreachable!(),
    }
}

/// The row of a part with one product at most.
fn gate_of(alloc: Global, control: &Control) -> Result<Gate, NoMemory>
    requires { is_row control.now ≡ true }
    ensures { IfOk result (λ gate. gate ≡ gate_by control.now) }
{
    match control {
        Control::Made { products } => match products.items() {
            [lits] => product_gate(alloc, lits.items()),
            _ => Ok(Gate::Never),
        },
        Control::Wide { .. } | Control::PrimesOver => unreachable!(),
    }
}
