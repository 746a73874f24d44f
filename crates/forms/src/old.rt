ghost use Rattle.std.specs.Prelude.{◌≡◌, [], map, slice_get, IfOk};
ghost use Rattle.board.specs.Joined.{equations_of};
ghost use Rattle.new_board.specs.NewChip.{gate_products};
ghost use Rattle.new_board.specs.OneForOne.{terms_over};
ghost use Rattle.plans.specs.Forms.{old_products as products_before, old_low as low_before, has_register};
ghost use Rattle.forms.specs.OldParts.{logic_before, enable_before, reset_before, preset_before, row_before, low_given};

use board::Board;
use mig_base::{Circuit, Driver, Gate, Gives, Items, Literal, NoMemory, Part};
use std::alloc::Global;
use structure::variable_product;

/// Products over variables, as literals of the board's equations.
pub type Products = Items<Items<Literal>>;

/// Whether a unit has a register.
pub fn is_registered(board: &Board, unit: u32) -> bool
    ensures { result ≡ has_register board.now unit }
{
    let circuit = board.circuit();
    match circuit.units.items().get(unit as usize) {
        Some(driver) => matches!(driver.gives, Gives::Visible(_)),
        None => false,
    }
}

/// Whether the old cell of a unit inverts its sum, of a registered unit before D.
pub(crate) fn old_low(board: &Board, unit: u32) -> bool
    ensures { result ≡ low_before (equations_of board.now) unit }
{
    let circuit = board.circuit();
    match circuit.units.items().get(unit as usize) {
        Some(driver) => low_by(circuit, &driver.gives, driver.low),
        None => false,
    }
}

fn low_by(circuit: &Circuit, gives: &Gives, low: bool) -> bool
    ensures { result ≡ low_given circuit.now low gives.now }
{
    match gives {
        Gives::Sum(_) => low,
        Gives::Visible(register) => match circuit.registers.items().get(*register as usize) {
            Some(register) => register.low,
            None => false,
        },
    }
}

/// The products of a part of a unit as its old cell has them, over variables. Fails for want of memory alone.
pub fn old_products(
    alloc: Global,
    board: &Board,
    unit: u32,
    part: Part,
) -> Result<Products, NoMemory>
    ensures { IfOk result (λ products. products ≡ products_before (equations_of board.now) unit part) }
{
    let circuit = board.circuit();
    let Some(driver) = circuit.units.items().get(unit as usize) else {
        return Ok(Items::new(Vec::new(alloc)));
    };
    match part {
        Part::Logic => logic_terms(alloc, circuit, &driver.gives),
        Part::Enable => enable(alloc, circuit, driver),
        Part::Reset => reset(alloc, circuit, &driver.gives),
        Part::Preset => preset(alloc, circuit, &driver.gives),
    }
}

fn logic_terms(alloc: Global, circuit: &Circuit, gives: &Gives) -> Result<Products, NoMemory>
    ensures { IfOk result (λ products. products ≡ logic_before circuit.now gives.now) }
{
    match gives {
        Gives::Sum(terms) => sum(alloc, circuit, terms.items()),
        Gives::Visible(register) => match circuit.registers.items().get(*register as usize) {
            Some(register) => sum(alloc, circuit, register.terms.items()),
            None => Ok(Items::new(Vec::new(alloc))),
        },
    }
}

fn enable(alloc: Global, circuit: &Circuit, driver: &Driver) -> Result<Products, NoMemory>
    ensures { IfOk result (λ products. products ≡ enable_before circuit.now driver.now.enable driver.now.gives) }
{
    match &driver.gives {
        Gives::Sum(_) => row(alloc, circuit, &driver.enable),
        Gives::Visible(register) => match circuit.registers.items().get(*register as usize) {
            Some(_) => row(alloc, circuit, &driver.enable),
            None => Ok(Items::new(Vec::new(alloc))),
        },
    }
}

fn reset(alloc: Global, circuit: &Circuit, gives: &Gives) -> Result<Products, NoMemory>
    ensures { IfOk result (λ products. products ≡ reset_before circuit.now gives.now) }
{
    match gives {
        Gives::Sum(_) => Ok(Items::new(Vec::new(alloc))),
        Gives::Visible(register) => match circuit.registers.items().get(*register as usize) {
            Some(register) => row(alloc, circuit, &register.reset),
            None => Ok(Items::new(Vec::new(alloc))),
        },
    }
}

fn preset(alloc: Global, circuit: &Circuit, gives: &Gives) -> Result<Products, NoMemory>
    ensures { IfOk result (λ products. products ≡ preset_before circuit.now gives.now) }
{
    match gives {
        Gives::Sum(_) => Ok(Items::new(Vec::new(alloc))),
        Gives::Visible(register) => match circuit.registers.items().get(*register as usize) {
            Some(register) => row(alloc, circuit, &register.preset),
            None => Ok(Items::new(Vec::new(alloc))),
        },
    }
}

/// The products of a sum, over variables.
fn sum(alloc: Global, circuit: &Circuit, terms: &[Items<Literal>]) -> Result<Products, NoMemory>
    ensures { IfOk result (λ products. products ≡ terms_over circuit.now terms.now) }
{
    let mut products = Vec::with_capacity(alloc, terms.len())?;
    for term in terms {
        products.push(Items::new(variable_product(alloc, circuit, term.items())?))?;
    }
    Ok(Items::new(products))
}

/// The product of a row over variables, or none where it is constant 0.
fn row(alloc: Global, circuit: &Circuit, gate: &Gate) -> Result<Products, NoMemory>
    ensures { IfOk result (λ products. products ≡ row_before circuit.now gate.now) }
{
    let mut products = Vec::new(alloc);
    if let Gate::Product(lits) = gate {
        products.push(Items::new(variable_product(alloc, circuit, lits.items())?))?;
    }
    Ok(Items::new(products))
}
