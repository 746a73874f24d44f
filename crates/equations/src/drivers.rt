ghost use Rattle.std.specs.Prelude.{ℕ, ◌≡◌, ◌<◌, ◌≤◌, ◌^◌, [], map, length, slice_index_or, IfOk};
ghost use Rattle.mig_base.specs.DeviceTables.{clock_pin};
ghost use Rattle.mig_base.specs.Boards.{low_pin as low_enable, row_on, enable_on, driver_of, register_of, registers_of, can_drive as may_drive, drives, places_from, wires_from, kinds_of as net_kinds};

use crate::driver_lists::DriverLists;
use crate::kinds::kinds_of;
use crate::numbers::Numbers;
use crate::units::BoardUnit;
use mig_base::{
    CLOCK_PIN, Driver, Enable, Gate, Gives, Items, Literal, NoMemory, Read, Register, Row, Wire,
};
use std::alloc::Global;

/// The enable by a low-active pin on this net.
fn low_pin(alloc: Global, net: u32) -> Result<Gate, NoMemory>
    ensures { IfOk result (λ gate. gate ≡ low_enable net) }
{
    let mut lits = Vec::new(alloc);
    match net {
        0 => {}
        1 => return Ok(Gate::Never),
        _ => lits.push(Literal {
            source: Read::OfNet(net),
            high: false,
        })?,
    }
    Ok(Gate::Product(Items::new(lits)))
}

/// Whether an enable is more than constant 0.
fn can_drive(enable: &Gate) -> bool
    ensures { result ≡ may_drive enable.now }
{
    matches!(enable, Gate::Product(_))
}

impl<'a> Numbers<'a> {
    /// A row of a chip, on its board.
    fn row(&self, alloc: Global, chip: u32, row: &Row) -> Result<Gate, NoMemory>
        requires { chip < length self.now.nets.now.chips }
        ensures { IfOk result (λ gate. gate ≡ row_on self.now.nets.now self.now.units.now chip row.now) }
    {
        match row {
            Row::Never => Ok(Gate::Never),
            Row::Product(product) => {
                let literals = self.literals(alloc, chip, product.items())?;
                Ok(Gate::Product(literals))
            }
        }
    }

    /// The effective enable of a cell of a chip.
    fn enable(&self, alloc: Global, chip: u32, enable: &Enable) -> Result<Gate, NoMemory>
        requires { chip < length self.now.nets.now.chips }
        ensures { IfOk result (λ gate. gate ≡ enable_on self.now.nets.now self.now.units.now chip enable.now) }
    {
        match enable {
            Enable::Always => Ok(Gate::Product(Items::new(Vec::new(alloc)))),
            Enable::Never => Ok(Gate::Never),
            Enable::Term(product) => {
                let literals = self.literals(alloc, chip, product.items())?;
                Ok(Gate::Product(literals))
            }
            Enable::LowPin(pin) => low_pin(alloc, self.net_of(chip, *pin)),
        }
    }

    /// A unit as a driver.
    pub(crate) fn driver(&self, alloc: Global, unit: &BoardUnit) -> Result<Driver, NoMemory>
        requires { unit.now.chip < length self.now.nets.now.chips }
        ensures { IfOk result (λ driver. driver ≡ driver_of self.now.nets.now self.now.units.now unit.now) }
    {
        let cell = unit.cell;
        let enable = self.enable(alloc, unit.chip, &cell.enable)?;
        if unit.is_registered() {
            let gives = Gives::Visible(self.register_of(unit.chip, cell.pin));
            return Ok(Driver {
                enable,
                gives,
                low: cell.pin_low,
            });
        }
        let gives = Gives::Sum(self.terms(alloc, unit.chip, cell.terms.items())?);
        Ok(Driver {
            enable,
            gives,
            low: cell.low,
        })
    }

    /// The register of a registered unit.
    pub(crate) fn register(&self, alloc: Global, unit: &BoardUnit) -> Result<Register, NoMemory>
        requires { unit.now.chip < length self.now.nets.now.chips }
        ensures { IfOk result (λ register. register ≡ register_of self.now.nets.now self.now.units.now unit.now) }
    {
        let (chip, cells) = (unit.chip, unit.cells);
        let terms = self.terms(alloc, chip, unit.cell.terms.items())?;
        let reset = self.row(alloc, chip, &cells.reset)?;
        let preset = self.row(alloc, chip, &cells.preset)?;
        Ok(Register {
            clock: self.net_of(chip, CLOCK_PIN),
            terms,
            low: unit.cell.low,
            reset,
            preset,
        })
    }

    /// The units as drivers, in order.
    pub(crate) fn drivers(&self, alloc: Global) -> Result<Vec<Driver>, NoMemory>
        ensures { IfOk result (λ drivers. drivers.items ≡ map (driver_of self.now.nets.now self.now.units.now) self.now.units.now) }
    {
        let mut drivers = Vec::with_capacity(alloc, self.units.len())?;
        for unit in self.units {
            drivers.push(self.driver(alloc, unit)?)?;
        }
        Ok(drivers)
    }

    /// The registers, in the order of their units.
    pub(crate) fn registers(&self, alloc: Global) -> Result<Vec<Register>, NoMemory>
        ensures { IfOk result (λ registers. registers.items ≡ map (register_of self.now.nets.now self.now.units.now) (registers_of self.now.units.now)) }
    {
        let mut registers = Vec::new(alloc);
        for unit in self.units {
            if unit.is_registered() {
                registers.push(self.register(alloc, unit)?)?;
            }
        }
        Ok(registers)
    }

    /// The units that drive each of so many nets, rising.
    pub(crate) fn drivers_by_net(
        &self,
        alloc: Global,
        drivers: &[Driver],
        nets: usize,
    ) -> Result<DriverLists, NoMemory>
        requires drivers { drivers.now ≡ map (driver_of self.now.nets.now self.now.units.now) self.now.units.now }
        requires units { length self.now.units.now < 2 ^ 32 }
        ensures size { IfOk result (λ lists. length lists ≡ nets) }
        ensures drivers { IfOk result (λ lists. (n : ℕ) → n < nets → slice_index_or lists n [] ≡ places_from (drives self.now.nets.now self.now.units.now n) 0 self.now.units.now) }
    {
        let mut lists = DriverLists::new(alloc, nets)?;
        for (number, unit) in self.units.iter().enumerate() {
            if can_drive(&drivers[number].enable) {
                lists.add(self.net_of(unit.chip, unit.cell.pin), number as u32)?;
            }
        }
        Ok(lists)
    }

    /// The nets, given the units as drivers.
    pub(crate) fn wires(&self, alloc: Global, drivers: &[Driver]) -> Result<Vec<Wire>, NoMemory>
        requires nets { length self.now.nets.now.nets ≤ 1024 }
        requires drivers { drivers.now ≡ map (driver_of self.now.nets.now self.now.units.now) self.now.units.now }
        requires units { length self.now.units.now < 2 ^ 32 }
        ensures { IfOk result (λ wires. wires.items ≡ wires_from self.now.nets.now self.now.units.now 0 (net_kinds self.now.nets.now)) }
    {
        let kinds = kinds_of(alloc, self.nets.named(), self.nets.private_nets())?;
        let lists = self.drivers_by_net(alloc, drivers, kinds.len())?;
        let wires = lists.into_wires(alloc, kinds)?;
        Ok(wires)
    }
}
