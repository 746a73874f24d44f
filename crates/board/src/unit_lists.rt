ghost use Rattle.std.specs.Prelude.{◌≡◌, ◌<◌, ◌≤◌, ◌++◌, ◌^◌, map, length, filter, IfOk, OnOk};
ghost use Rattle.std.specs.List.{All, zip};
ghost use Rattle.mig_base.specs.Boards.{ChipUnit, is_unit as gives_unit, units_from, places_from};
ghost use Rattle.mig_base.specs.First.{made_from};
ghost use Rattle.board.specs.UnitLists.{cell_places as places_of_cells, unit_on, clock_net, has_named, named_pin, registers_before};

use crate::Unit;
use crate::names::pin_name;
use equations::{BoardUnit, NetNumbers, is_unit};
use mig_base::{CLOCK_PIN, ChipCells, Items, Net, NoMemory, PinName};
use std::alloc::Global;

/// Adds the places of those cells of a chip that are units.
fn push_places(places: &mut Vec<u32>, chip: &ChipCells) -> Result<(), NoMemory>
    ensures { OnOk result (places.new.items ≡ places.old.items ++ places_from (gives_unit chip.now) 0 chip.now.cells) }
{
    let cells = chip.cells.items();
    if cells.len() > u32::MAX as usize {
        return Err(NoMemory);
    }
    for (place, cell) in cells.iter().enumerate() {
        if is_unit(chip, cell) {
            places.push(place as u32)?;
        }
    }
    Ok(())
}

/// The places of those cells that are units, chip by chip.
pub(crate) fn cell_places(alloc: Global, chips: &[ChipCells]) -> Result<Vec<u32>, NoMemory>
    ensures { IfOk result (λ places. places.items ≡ places_of_cells chips.now) }
{
    let mut places = Vec::new(alloc);
    for chip in chips {
        push_places(&mut places, chip)?;
    }
    Ok(places)
}

/// The net of a unit's clock, and 0 where it has no register.
fn clock_of(numbers: &NetNumbers, unit: &BoardUnit) -> u32
    requires { unit.now.chip < length numbers.now.chips }
    ensures { result ≡ clock_net numbers.now unit.now }
{
    if unit.is_registered() {
        numbers.net_of(unit.chip, CLOCK_PIN)
    } else {
        0
    }
}

/// A unit whose cell has this place, by name and number.
fn unit_of(net: &Net, numbers: &NetNumbers, unit: &BoardUnit, cell: u32) -> Unit
    requires same { numbers.now ≡ net.now }
    requires chip { unit.now.chip < length net.now.chips }
    ensures { result ≡ unit_on net.now (unit.now, cell) }
{
    Unit {
        name: pin_name(net, unit.at()),
        chip: unit.chip,
        cell,
        registered: unit.is_registered(),
        net: numbers.net_of(unit.chip, unit.cell.pin),
        clock: clock_of(numbers, unit),
    }
}

/// These units, whose cells have these places, by name and number.
pub(crate) fn named_units(
    alloc: Global,
    net: &Net,
    numbers: &NetNumbers,
    units: &[BoardUnit],
    places: &[u32],
) -> Result<Vec<Unit>, NoMemory>
    requires same { numbers.now ≡ net.now }
    requires chips { All (λ (u : ChipUnit). u.chip < length net.now.chips) units.now }
    requires places { length places.now ≡ length units.now }
    ensures { IfOk result (λ named. named.items ≡ map (unit_on net.now) (zip units.now places.now)) }
{
    let mut named = Vec::with_capacity(alloc, units.len())?;
    for (number, unit) in units.iter().enumerate() {
        named.push(unit_of(net, numbers, unit, places[number]))?;
    }
    Ok(named)
}

/// The numbers of the registered units.
pub(crate) fn registered(alloc: Global, units: &[Unit]) -> Result<Items<u32>, NoMemory>
    requires { length units.now < 2 ^ 32 }
    ensures { IfOk result (λ numbers. numbers ≡ places_from has_named 0 units.now) }
{
    let mut numbers = Vec::new(alloc);
    for (number, unit) in units.iter().enumerate() {
        if unit.registered {
            numbers.push(number as u32)?;
        }
    }
    Ok(Items::new(numbers))
}

/// How many registered units stand before each unit.
pub(crate) fn register_places(alloc: Global, units: &[Unit]) -> Result<Items<u32>, NoMemory>
    requires { length units.now < 2 ^ 32 }
    ensures { IfOk result (λ places. places ≡ made_from (registers_before units.now) 0 (length units.now)) }
{
    let mut places = Vec::with_capacity(alloc, units.len())?;
    let mut registers = 0;
    for unit in units {
        places.push(registers)?;
        if unit.registered {
            registers += 1;
        }
    }
    Ok(Items::new(places))
}

/// The pins of the registers, by name.
pub(crate) fn register_pins(alloc: Global, units: &[Unit]) -> Result<Items<PinName>, NoMemory>
    ensures { IfOk result (λ pins. pins ≡ map named_pin (filter has_named units.now)) }
{
    let mut pins = Vec::new(alloc);
    for unit in units {
        if unit.registered {
            pins.push(unit.name)?;
        }
    }
    Ok(Items::new(pins))
}
