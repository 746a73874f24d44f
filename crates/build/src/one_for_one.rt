ghost use Rattle.std.specs.Prelude.{◌≡◌, ◌<◌, ◌≤◌, ◌^◌, map, length, IfOk};
ghost use Rattle.std.specs.List.{All};
ghost use Rattle.mig_base.specs.Boards.{ChipUnit};
ghost use Rattle.new_board.specs.OneForOne.{gal_kind as kind_of_gal, gal_mode as mode_of_gal, placed_from, same_chips_from, place_line as line_placing, plan_chip as chip_planned};

use crate::old_rows::old_rows;
use avail::{Old, PlannedChip};
use equations::BoardUnit;
use mig_base::{
    ChipCells, ChipLine, Items, Kind, Mode, Net, NoMemory, PinName, PlanChip, PlanLine,
};
use new_board::PlacedUnit;
use std::alloc::Global;

/// The kind of the new chip: a PAL becomes the V8 of its size, a GAL stays what it is.
fn gal_kind(kind: Kind) -> Kind
    ensures { result ≡ kind_of_gal kind }
{
    match kind {
        Kind::Pal16L8 | Kind::Pal16R4 | Kind::Pal16R6 | Kind::Pal16R8 => Kind::Gal16V8,
        Kind::Pal20L8 | Kind::Pal20R4 | Kind::Pal20R6 | Kind::Pal20R8 => Kind::Gal20V8,
        _ => kind,
    }
}

/// The mode of the new chip: for a PAL complex without registered pins, else registered.
fn gal_mode(kind: Kind, mode: Mode) -> Mode
    ensures { result ≡ mode_of_gal kind mode }
{
    match kind {
        Kind::Pal16L8 | Kind::Pal20L8 => Mode::Complex,
        Kind::Pal16R4 | Kind::Pal16R6 | Kind::Pal16R8 => Mode::Registered,
        Kind::Pal20R4 | Kind::Pal20R6 | Kind::Pal20R8 => Mode::Registered,
        _ => mode,
    }
}

/// The units of a chip on their pins, with their old rows.
fn placed(alloc: Global, old: &Old, chip: u32) -> Result<Vec<PlacedUnit>, NoMemory>
    requires { length old.now.units < 2 ^ 32 }
    ensures { IfOk result (λ placed. placed.items ≡ placed_from old.now.circuit chip 0 old.now.units) }
{
    let mut placed = Vec::new(alloc);
    for (number, unit) in old.units.as_slice().iter().enumerate() {
        if unit.chip == chip {
            let pin = unit.cell.pin;
            placed.push(old_rows(alloc, old.circuit, pin, number as u32)?)?;
        }
    }
    Ok(placed)
}

/// The new chip for an old one.
fn same_chip(
    alloc: Global,
    old: &Old,
    chip: u32,
    line: &ChipLine,
    mode: Mode,
) -> Result<PlannedChip, NoMemory>
    requires { length old.now.units < 2 ^ 32 }
    ensures { IfOk result (λ made. made ≡ record { name = line.now.name; kind = kind_of_gal line.now.kind; mode = mode_of_gal line.now.kind mode; units = placed_from old.now.circuit chip 0 old.now.units }) }
{
    let units = placed(alloc, old, chip)?;
    Ok(PlannedChip {
        name: line.name,
        kind: gal_kind(line.kind),
        mode: gal_mode(line.kind, mode),
        units,
    })
}

/// The new chips, one for each old one.
pub(crate) fn same_chips(
    alloc: Global,
    old: &Old,
    chips: &[ChipCells],
) -> Result<Vec<PlannedChip>, NoMemory>
    requires units { length old.now.units < 2 ^ 32 }
    requires chips { length chips.now ≡ length old.now.net.chips }
    ensures { IfOk result (λ made. made.items ≡ same_chips_from old.now 0 old.now.net.chips chips.now) }
{
    let mut made = Vec::new(alloc);
    for (number, line) in old.net.chips.items().iter().enumerate() {
        let mode = chips[number].mode;
        made.push(same_chip(alloc, old, number as u32, line, mode)?)?;
    }
    Ok(made)
}

/// A chip of the plan.
fn plan_chip(chip: &PlannedChip) -> PlanChip
    ensures { result ≡ chip_planned chip.now }
{
    PlanChip {
        name: chip.name,
        kind: chip.kind,
        mode: chip.mode,
    }
}

/// The chips of the plan.
pub(crate) fn plan_chips(alloc: Global, chips: &[PlannedChip]) -> Result<Items<PlanChip>, NoMemory>
    ensures { IfOk result (λ lines. lines ≡ map chip_planned chips.now) }
{
    let mut lines = Vec::new(alloc);
    for chip in chips {
        lines.push(plan_chip(chip))?;
    }
    Ok(Items::new(lines))
}

/// The line that leaves a unit on its pin.
fn place_line(net: &Net, unit: &BoardUnit) -> PlanLine
    requires { unit.now.chip < length net.now.chips }
    ensures { result ≡ line_placing net.now unit.now }
{
    let chip = net.chips.items()[unit.chip as usize].name;
    let pin = unit.cell.pin;
    PlanLine::Place {
        unit: PinName { chip, pin },
        chip,
        pin,
    }
}

/// The lines of the units, in unit order.
pub(crate) fn place_lines(
    alloc: Global,
    net: &Net,
    units: &[BoardUnit],
) -> Result<Items<PlanLine>, NoMemory>
    requires { All (λ (u : ChipUnit). u.chip < length net.now.chips) units.now }
    ensures { IfOk result (λ lines. lines ≡ map (line_placing net.now) units.now) }
{
    let mut lines = Vec::new(alloc);
    for unit in units {
        lines.push(place_line(net, unit))?;
    }
    Ok(Items::new(lines))
}
