ghost use Rattle.std.specs.Prelude.{◌≡◌, map, IfOk, Some, slice_get, if◌then◌else◌};
ghost use Rattle.mig_base.specs.DeviceTables.{cell_pins as pins_of_cells, is_22 as is_22v10, enable_pin as pin_enabling};
ghost use Rattle.new_board.specs.NewChip.{first_registered};
ghost use Rattle.new_board.specs.NewFiles.{new_enable, new_row, new_comb, new_reg, new_cell, cell_of as cell_of_unit, pin_low_of, new_cells as cells_on, reset_gate, preset_gate};

use crate::pin_columns::Columns;
use avail::unit_register;
use devices::{cell_pins, idle};
use mig_base::{
    Cell, ChipCells, Circuit, Enable, Form, Gate, Items, Literal, NoMemory, Row, enable_pin, is_22,
};
use new_board::PlacedUnit;
use std::alloc::Global;

impl<'a> Columns<'a> {
    /// The enable of a product of the new chip: Always where it has no literals.
    fn product_enable(&self, alloc: Global, lits: &[Literal]) -> Result<Enable, NoMemory>
        ensures { IfOk result (λ enable. enable ≡ new_enable self.now.nets.old.now self.now.nets.chip.now (Gate.Product lits.now)) }
    {
        if lits.is_empty() {
            return Ok(Enable::Always);
        }
        let product = self.product(alloc, lits)?;
        Ok(Enable::Term(product))
    }

    /// An enable row of the new chip.
    fn enable(&self, alloc: Global, gate: &Gate) -> Result<Enable, NoMemory>
        ensures { IfOk result (λ enable. enable ≡ new_enable self.now.nets.old.now self.now.nets.chip.now gate.now) }
    {
        match gate {
            Gate::Never => Ok(Enable::Never),
            Gate::Product(lits) => self.product_enable(alloc, lits.items()),
        }
    }

    /// A reset or preset row of the new chip.
    fn row(&self, alloc: Global, gate: &Gate) -> Result<Row, NoMemory>
        ensures { IfOk result (λ row. row ≡ new_row self.now.nets.old.now self.now.nets.chip.now gate.now) }
    {
        match gate {
            Gate::Never => Ok(Row::Never),
            Gate::Product(lits) => {
                let product = self.product(alloc, lits.items())?;
                Ok(Row::Product(product))
            }
        }
    }

    /// A combinational cell. It is idle where it is never enabled.
    fn combinational(&self, alloc: Global, pin: u8, unit: &PlacedUnit) -> Result<Cell, NoMemory>
        ensures { IfOk result (λ cell. cell ≡ new_comb self.now.nets.old.now self.now.nets.chip.now pin unit.now unit.now.enable) }
    {
        if matches!(unit.enable, Gate::Never) {
            return Ok(idle(alloc, pin));
        }
        let enable = self.enable(alloc, &unit.enable)?;
        let terms = self.terms(alloc, unit.terms.items())?;
        Ok(Cell {
            pin,
            form: Form::Comb,
            low: unit.low,
            pin_low: false,
            enable,
            terms,
        })
    }

    /// The enable of a registered cell: on a 22V10 by its enable row, on a V8 by the enable pin.
    fn register_enable(&self, alloc: Global, enable: &Gate) -> Result<Enable, NoMemory>
        ensures { IfOk result (λ made. made ≡ (if is_22v10 self.now.nets.chip.now.kind then new_enable self.now.nets.old.now self.now.nets.chip.now enable.now else Enable.LowPin (pin_enabling self.now.nets.chip.now.kind))) }
    {
        let chip = self.nets.chip;
        let kind = chip.kind;
        if is_22(kind) {
            self.enable(alloc, enable)
        } else {
            Ok(Enable::LowPin(enable_pin(kind)))
        }
    }

    /// A registered cell.
    fn registered(&self, alloc: Global, pin: u8, unit: &PlacedUnit) -> Result<Cell, NoMemory>
        ensures { IfOk result (λ cell. cell ≡ new_reg self.now.nets.old.now self.now.nets.chip.now pin unit.now) }
    {
        let old = self.nets.old;
        let pin_low = pin_is_low(old.circuit, unit.unit);
        let enable = self.register_enable(alloc, &unit.enable)?;
        let terms = self.terms(alloc, unit.terms.items())?;
        Ok(Cell {
            pin,
            form: Form::Reg,
            low: unit.low,
            pin_low,
            enable,
            terms,
        })
    }

    /// The cell of a unit.
    fn cell_of(&self, alloc: Global, pin: u8, unit: &PlacedUnit) -> Result<Cell, NoMemory>
        ensures { IfOk result (λ cell. cell ≡ cell_of_unit self.now.nets.old.now self.now.nets.chip.now pin (Some unit.now)) }
    {
        let old = self.nets.old;
        match unit_register(old.circuit, unit.unit) {
            Some(_) => self.registered(alloc, pin, unit),
            None => self.combinational(alloc, pin, unit),
        }
    }

    /// The cell of a pin: that of its unit, or idle.
    fn cell(&self, alloc: Global, pin: u8) -> Result<Cell, NoMemory>
        ensures { IfOk result (λ cell. cell ≡ new_cell self.now.nets.old.now self.now.nets.chip.now pin) }
    {
        match self.nets.chip.unit_on(pin) {
            Some(unit) => self.cell_of(alloc, pin, unit),
            None => Ok(idle(alloc, pin)),
        }
    }

    /// The macrocells, by rising pin.
    fn macrocells(&self, alloc: Global) -> Result<Items<Cell>, NoMemory>
        ensures { IfOk result (λ cells. cells ≡ map (new_cell self.now.nets.old.now self.now.nets.chip.now) (pins_of_cells self.now.nets.chip.now.kind)) }
    {
        let chip = self.nets.chip;
        let mut cells = Vec::new(alloc);
        for pin in cell_pins(chip.kind) {
            cells.push(self.cell(alloc, *pin)?)?;
        }
        Ok(Items::new(cells))
    }

    /// The reset row, by the chip's first registered unit.
    fn reset(&self, alloc: Global) -> Result<Row, NoMemory>
        ensures { IfOk result (λ row. row ≡ new_row self.now.nets.old.now self.now.nets.chip.now (reset_gate (first_registered self.now.nets.old.now.circuit self.now.nets.chip.now))) }
    {
        let old = self.nets.old;
        match self.nets.chip.first_registered(old.circuit) {
            Some(unit) => self.row(alloc, &unit.reset),
            None => Ok(Row::Never),
        }
    }

    /// The preset row, by the chip's first registered unit.
    fn preset(&self, alloc: Global) -> Result<Row, NoMemory>
        ensures { IfOk result (λ row. row ≡ new_row self.now.nets.old.now self.now.nets.chip.now (preset_gate (first_registered self.now.nets.old.now.circuit self.now.nets.chip.now))) }
    {
        let old = self.nets.old;
        match self.nets.chip.first_registered(old.circuit) {
            Some(unit) => self.row(alloc, &unit.preset),
            None => Ok(Row::Never),
        }
    }

    /// The cells of the new chip. Fails for want of memory alone.
    pub fn cells(&self, alloc: Global) -> Result<ChipCells, NoMemory>
        ensures { IfOk result (λ cells. cells ≡ cells_on self.now.nets.old.now self.now.nets.chip.now) }
    {
        let cells = self.macrocells(alloc)?;
        let reset = self.reset(alloc)?;
        let preset = self.preset(alloc)?;
        let chip = self.nets.chip;
        Ok(ChipCells {
            kind: chip.kind,
            mode: chip.mode,
            cells,
            reset,
            preset,
        })
    }
}

/// Whether the pin of a registered unit shows NOT Q.
fn pin_is_low(circuit: &Circuit, unit: u32) -> bool
    ensures { result ≡ pin_low_of (slice_get circuit.now.units unit) }
{
    match circuit.units.items().get(unit as usize) {
        Some(driver) => driver.low,
        None => false,
    }
}
