ghost use Rattle.std.specs.Prelude.{◌≡◌, option_copied};
ghost use Rattle.new_board.specs.OneForOne.{no_rows as without_rows};
ghost use Rattle.new_board.specs.NewChip.{unit_on, unit_register as register_of_unit, placed_clock as clock_placed, register_on, first_registered, clock_net};

use mig_base::{Circuit, Gate, Gives, Items, Kind, Mode, Name};
use new_board::PlacedUnit;
use std::alloc::Global;
use std::marker::Model;

/// A new chip, with its units in unit order.
#[derive(Drop)]
pub struct PlannedChip {
    pub name: Name,
    pub kind: Kind,
    pub mode: Mode,
    pub units: Vec<PlacedUnit>,
}

impl Model for PlannedChip {
    ghost use Rattle.new_board.specs.NewChip.{NewChip};

    ghost Value = { NewChip };

    ghost view = { λ c. record { name = c.name; kind = c.kind; mode = c.mode; units = c.units.items } };
}

impl PlannedChip {
    /// The unit on a pin.
    pub fn unit_on(&self, pin: u8) -> Option<&PlacedUnit>
        ensures { option_copied result ≡ unit_on self.now.units pin }
    {
        unit_among(self.units.as_slice(), pin)
    }

    /// The register on a pin.
    pub(crate) fn register_on(&self, circuit: &Circuit, pin: u8) -> Option<u32>
        ensures { result ≡ register_on circuit.now self.now pin }
    {
        unit_register(circuit, self.unit_on(pin)?.unit)
    }

    /// The first registered unit.
    pub fn first_registered(&self, circuit: &Circuit) -> Option<&PlacedUnit>
        ensures { option_copied result ≡ first_registered circuit.now self.now }
    {
        for unit in &self.units {
            if unit_register(circuit, unit.unit).is_some() {
                return Some(unit);
            }
        }
        None
    }

    /// The net of the clock pin, where the chip has registered units.
    pub(crate) fn clock_net(&self, circuit: &Circuit) -> Option<u32>
        ensures { result ≡ clock_net circuit.now self.now }
    {
        placed_clock(circuit, self.first_registered(circuit)?)
    }
}

/// The unit on a pin, among these.
fn unit_among(units: &[PlacedUnit], pin: u8) -> Option<&PlacedUnit>
    ensures { option_copied result ≡ unit_on units.now pin }
{
    for unit in units {
        if unit.pin == pin {
            return Some(unit);
        }
    }
    None
}

/// The clock net of a unit's register.
fn placed_clock(circuit: &Circuit, unit: &PlacedUnit) -> Option<u32>
    ensures { result ≡ clock_placed circuit.now unit.now }
{
    let register = unit_register(circuit, unit.unit)?;
    let register = circuit.registers.items().get(register as usize)?;
    Some(register.clock)
}

/// The register of a unit.
pub fn unit_register(circuit: &Circuit, unit: u32) -> Option<u32>
    ensures { result ≡ register_of_unit circuit.now unit }
{
    match circuit.units.items().get(unit as usize)?.gives {
        Gives::Visible(register) => Some(register),
        Gives::Sum(_) => None,
    }
}

/// A unit without rows.
pub fn no_rows(alloc: Global, pin: u8, unit: u32) -> PlacedUnit
    ensures { result ≡ without_rows pin unit }
{
    PlacedUnit {
        pin,
        unit,
        low: false,
        terms: Items::new(Vec::new(alloc)),
        enable: Gate::Never,
        reset: Gate::Never,
        preset: Gate::Never,
    }
}
