ghost use Rattle.std.specs.Prelude.{◌≡◌, ◌∷◌, ◌++◌, [], if◌then◌else◌, IfOk, OnOk, Some};
ghost use Rattle.std.specs.List.{cons_option};
ghost use Rattle.new_board.specs.NewChip.{when as only_when};
ghost use Rattle.plans.specs.Placings as spec;

use crate::chips::chip_named;
use crate::units::same_pin;
use board::Board;
use mig_base::{NoMemory, PinName, Plan, PlanChip, PlanLine};
use plans::Placing;
use std::alloc::{AllocError, Global};

/// The units that a plan places, in unit order. Fails for want of memory alone.
pub fn placings(alloc: Global, board: &Board, plan: &Plan) -> Result<Vec<Placing>, NoMemory>
    ensures { IfOk result (λ placed. placed.items ≡ spec.placings board.now plan.now) }
{
    let units = board.units();
    if units.len() > u32::MAX as usize {
        return Err(NoMemory);
    }
    let mut placed = Vec::new(alloc);
    for (number, unit) in units.iter().enumerate() {
        keep_placed(&mut placed, placing_of(plan, number as u32, &unit.name))?;
    }
    Ok(placed)
}

/// The numbers of the units that a plan absorbs, rising. Fails for want of memory alone.
pub fn absorbed_units(alloc: Global, board: &Board, plan: &Plan) -> Result<Vec<u32>, NoMemory>
    ensures { IfOk result (λ numbers. numbers.items ≡ spec.absorbed_units board.now plan.now) }
{
    let units = board.units();
    if units.len() > u32::MAX as usize {
        return Err(NoMemory);
    }
    let mut numbers = Vec::new(alloc);
    for (number, unit) in units.iter().enumerate() {
        let absorbed = is_absorbed(plan.lines.items(), &unit.name);
        keep_number(&mut numbers, absorbed, number as u32)?;
    }
    Ok(numbers)
}

fn keep_placed(placed: &mut Vec<Placing>, placing: Option<Placing>) -> Result<(), AllocError>
    ensures { OnOk result (placed.new.items ≡ placed.old.items ++ cons_option placing []) }
{
    if let Some(placing) = placing {
        placed.push(placing)?;
    }
    Ok(())
}

fn keep_number(numbers: &mut Vec<u32>, kept: bool, number: u32) -> Result<(), AllocError>
    ensures { OnOk result (numbers.new.items ≡ numbers.old.items ++ (if kept then number ∷ [] else [])) }
{
    if kept {
        numbers.push(number)?;
    }
    Ok(())
}

/// Where the plan places the unit of this number and name.
fn placing_of(plan: &Plan, number: u32, name: &PinName) -> Option<Placing>
    ensures { result ≡ spec.placing_of plan.now (number, name.now) }
{
    match target(plan.lines.items(), name) {
        Some(at) => placing_at(plan.chips.items(), number, name, &at),
        None => None,
    }
}

fn placing_at(chips: &[PlanChip], unit: u32, name: &PinName, at: &PinName) -> Option<Placing>
    ensures { result ≡ spec.placing_on unit name.now at.now.pin (spec.chip_named chips.now at.now.chip) }
{
    match chip_named(chips, &at.chip) {
        Some(chip) => Some(Placing {
            unit,
            name: *name,
            chip,
            pin: at.pin,
        }),
        None => None,
    }
}

/// The pin that the first line gives the unit that gives it one.
fn target(lines: &[PlanLine], name: &PinName) -> Option<PinName>
    ensures { result ≡ spec.target_in lines.now name.now }
{
    for line in lines {
        if let Some(at) = target_by(line, name) {
            return Some(at);
        }
    }
    None
}

fn target_by(line: &PlanLine, name: &PinName) -> Option<PinName>
    ensures { result ≡ spec.target_by name.now line.now }
{
    match line {
        PlanLine::Place { unit, chip, pin } => at_target(
            same_pin(unit, name),
            PinName {
                chip: *chip,
                pin: *pin,
            },
        ),
        PlanLine::Absorb { .. } => None,
    }
}

fn at_target(named: bool, at: PinName) -> Option<PinName>
    ensures { result ≡ only_when named (Some at) }
{
    named.then_some(at)
}

/// Whether one of the lines absorbs the unit.
fn is_absorbed(lines: &[PlanLine], name: &PinName) -> bool
    ensures { result ≡ spec.is_absorbed_in lines.now name.now }
{
    lines.iter().any(|l| absorbs(name, l))
}

fn absorbs(name: &PinName, line: &PlanLine) -> bool
    ensures { result ≡ spec.absorbs name.now line.now }
{
    match line {
        PlanLine::Place { .. } => false,
        PlanLine::Absorb { unit } => same_pin(unit, name),
    }
}
