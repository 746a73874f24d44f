ghost use Rattle.std.specs.Prelude.{◌≡◌, ◌<◌, ◌^◌, length, IfSome};
ghost use Rattle.std.specs.List.{position};
ghost use Rattle.board.specs.Joined.{equations_of};
ghost use Rattle.plans.specs.FirstOf.{Gives, GivesFirst};
ghost use Rattle.plans.specs.LineBreaches.{IsNotAbsorbable, GivesUnplaced};
ghost use Rattle.plans.specs.Placings as spec;

use board::{Board, Unit};
use mig_base::{Breach, PinName, Plan, PlanLine};

/// Whether two pins have one name.
pub(crate) fn same_pin(u: &PinName, v: &PinName) -> bool
    ensures { result ≡ spec.same_pin u.now v.now }
{
    u.chip.bytes() == v.chip.bytes() && u.pin == v.pin
}

/// The number of the unit of this name.
pub(crate) fn unit_named(board: &Board, name: &PinName) -> Option<usize>
    ensures number { result ≡ spec.unit_named board.now name.now }
    ensures within { IfSome result (λ k. k < length (equations_of board.now).units) }
{
    unit_among(board.units(), name)
}

fn unit_among(units: &[Unit], name: &PinName) -> Option<usize>
    ensures place { result ≡ position (λ u. spec.same_pin name.now u.name) units.now }
    ensures within { IfSome result (λ k. k < length units.now) }
{
    units.iter().position(|u| same_pin(name, &u.name))
}

/// The unit that a line names.
pub(crate) fn named_by(line: &PlanLine) -> PinName
    ensures { result ≡ spec.named_by line.now }
{
    match line {
        PlanLine::Place { unit, .. } => *unit,
        PlanLine::Absorb { unit } => *unit,
    }
}

/// Whether one of the lines names the unit.
pub(crate) fn is_listed(lines: &[PlanLine], name: &PinName) -> bool
    ensures { result ≡ spec.is_listed lines.now name.now }
{
    lines.iter().any(|l| same_pin(&named_by(l), name))
}

/// The breach of an absorbed unit that isn't absorbable.
pub(crate) fn not_absorbable(board: &Board, unit: &PinName) -> Option<Breach>
    requires few { length (equations_of board.now).units < 2 ^ 32 }
    ensures { Gives (IsNotAbsorbable board.now) unit.now result }
{
    let Some(number) = unit_named(board, unit) else {
        return None;
    };
    if board.absorbable(number as u32) {
        return None;
    }
    Some(Breach::NotAbsorbable { unit: *unit })
}

/// The breach of the first live unit that is neither placed nor absorbed.
pub(crate) fn first_unplaced(board: &Board, plan: &Plan) -> Option<Breach>
    requires few { length (equations_of board.now).units < 2 ^ 32 }
    ensures { GivesFirst (GivesUnplaced board.now plan.now) (spec.numbered_units board.now) result }
{
    for (number, unit) in board.units().iter().enumerate() {
        if let Some(breach) = unplaced(board, plan, number as u32, &unit.name) {
            return Some(breach);
        }
    }
    None
}

fn unplaced(board: &Board, plan: &Plan, number: u32, name: &PinName) -> Option<Breach>
    requires { number < length (equations_of board.now).units }
    ensures { Gives (GivesUnplaced board.now plan.now) (number, name.now) result }
{
    if is_listed(plan.lines.items(), name) {
        return None;
    }
    if board.is_live(number) {
        return Some(Breach::Unplaced { unit: *name });
    }
    None
}
