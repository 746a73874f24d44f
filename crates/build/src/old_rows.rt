ghost use Rattle.std.specs.Prelude.{◌≡◌, Some, slice_get, IfOk};
ghost use Rattle.mig_base.specs.Structure.{variable_gate};
ghost use Rattle.new_board.specs.OneForOne.{terms_over as terms_of_board, old_comb, old_reg, old_giving, old_rows as rows_of_unit};

use avail::no_rows;
use mig_base::{Circuit, Driver, Gate, Gives, Items, Literal, NoMemory, Register};
use new_board::PlacedUnit;
use std::alloc::Global;
use structure::variable_product;

/// The terms of a sum, over variables.
fn terms_over(
    alloc: Global,
    circuit: &Circuit,
    terms: &[Items<Literal>],
) -> Result<Items<Items<Literal>>, NoMemory>
    ensures { IfOk result (λ over. over ≡ terms_of_board circuit.now terms.now) }
{
    let mut over = Vec::new(alloc);
    for term in terms {
        over.push(Items::new(variable_product(alloc, circuit, term.items())?))?;
    }
    Ok(Items::new(over))
}

/// A row, over variables.
fn gate_over(alloc: Global, circuit: &Circuit, gate: &Gate) -> Result<Gate, NoMemory>
    ensures { IfOk result (λ over. over ≡ variable_gate circuit.now gate.now) }
{
    match gate {
        Gate::Never => Ok(Gate::Never),
        Gate::Product(lits) => {
            let product = variable_product(alloc, circuit, lits.items())?;
            Ok(Gate::Product(Items::new(product)))
        }
    }
}

/// A combinational unit with its old rows.
fn combinational(
    alloc: Global,
    circuit: &Circuit,
    pin: u8,
    unit: u32,
    driver: &Driver,
    terms: &[Items<Literal>],
) -> Result<PlacedUnit, NoMemory>
    ensures { IfOk result (λ placed. placed ≡ old_comb circuit.now pin unit driver.now terms.now) }
{
    let terms = terms_over(alloc, circuit, terms)?;
    let enable = gate_over(alloc, circuit, &driver.enable)?;
    Ok(PlacedUnit {
        pin,
        unit,
        low: driver.low,
        terms,
        enable,
        reset: Gate::Never,
        preset: Gate::Never,
    })
}

/// A registered unit with its old rows.
fn registered(
    alloc: Global,
    circuit: &Circuit,
    pin: u8,
    unit: u32,
    driver: &Driver,
    register: &Register,
) -> Result<PlacedUnit, NoMemory>
    ensures { IfOk result (λ placed. placed ≡ old_reg circuit.now pin unit driver.now (Some register.now)) }
{
    let terms = terms_over(alloc, circuit, register.terms.items())?;
    let enable = gate_over(alloc, circuit, &driver.enable)?;
    let reset = gate_over(alloc, circuit, &register.reset)?;
    let preset = gate_over(alloc, circuit, &register.preset)?;
    Ok(PlacedUnit {
        pin,
        unit,
        low: register.low,
        terms,
        enable,
        reset,
        preset,
    })
}

/// A unit with the old rows of what it drives.
fn driving(
    alloc: Global,
    circuit: &Circuit,
    pin: u8,
    unit: u32,
    driver: &Driver,
) -> Result<PlacedUnit, NoMemory>
    ensures { IfOk result (λ placed. placed ≡ old_giving circuit.now pin unit driver.now driver.now.gives) }
{
    match &driver.gives {
        Gives::Sum(terms) => combinational(alloc, circuit, pin, unit, driver, terms.items()),
        Gives::Visible(number) => match circuit.registers.items().get(*number as usize) {
            Some(register) => registered(alloc, circuit, pin, unit, driver, register),
            None => Ok(no_rows(alloc, pin, unit)),
        },
    }
}

/// The unit of this number on a pin, with its old rows over variables.
pub(crate) fn old_rows(
    alloc: Global,
    circuit: &Circuit,
    pin: u8,
    unit: u32,
) -> Result<PlacedUnit, NoMemory>
    ensures { IfOk result (λ placed. placed ≡ rows_of_unit circuit.now pin unit) }
{
    match circuit.units.items().get(unit as usize) {
        Some(driver) => driving(alloc, circuit, pin, unit, driver),
        None => Ok(no_rows(alloc, pin, unit)),
    }
}
