ghost use Rattle.std.specs.Prelude.{◌≡◌, ◌++◌, slice_get, IfOk, OnOk};
ghost use Rattle.mig_base.specs.Values.{product_reads, sum_reads, row_reads};
ghost use Rattle.mig_base.specs.Reads.{gives_reads, driver_reads, wire_reads as reads_of_wire};

use mig_base::{Circuit, Gate, Gives, Items, Literal, NoMemory, Read, Register, Wire};
use std::alloc::Global;

/// Adds the sources of a product.
fn add_product(reads: &mut Vec<Read>, literals: &[Literal]) -> Result<(), NoMemory>
    ensures { OnOk result (reads.new.items ≡ reads.old.items ++ product_reads literals.now) }
{
    for literal in literals {
        reads.push(literal.source)?;
    }
    Ok(())
}

/// Adds the sources of a row.
fn add_row(reads: &mut Vec<Read>, row: &Gate) -> Result<(), NoMemory>
    ensures { OnOk result (reads.new.items ≡ reads.old.items ++ row_reads row.now) }
{
    match row {
        Gate::Never => Ok(()),
        Gate::Product(literals) => add_product(reads, literals.items()),
    }
}

/// Adds the sources of a sum.
fn add_sum(reads: &mut Vec<Read>, terms: &[Items<Literal>]) -> Result<(), NoMemory>
    ensures { OnOk result (reads.new.items ≡ reads.old.items ++ sum_reads terms.now) }
{
    for term in terms {
        add_product(reads, term.items())?;
    }
    Ok(())
}

/// Adds the sources of a unit's terms, or its visible Q.
fn add_gives(reads: &mut Vec<Read>, gives: &Gives) -> Result<(), NoMemory>
    ensures { OnOk result (reads.new.items ≡ reads.old.items ++ gives_reads gives.now) }
{
    match gives {
        Gives::Sum(terms) => add_sum(reads, terms.items()),
        Gives::Visible(register) => {
            reads.push(Read::OfRegister(*register))?;
            Ok(())
        }
    }
}

/// Adds what a driver reads, by its unit's number.
fn add_driver(reads: &mut Vec<Read>, circuit: &Circuit, unit: u32) -> Result<(), NoMemory>
    ensures { OnOk result (reads.new.items ≡ reads.old.items ++ driver_reads (slice_get circuit.now.units unit)) }
{
    let units = circuit.units.items();
    let unit = unit as usize;
    if unit < units.len() {
        let driver = &units[unit];
        add_row(reads, &driver.enable)?;
        add_gives(reads, &driver.gives)?;
    }
    Ok(())
}

/// What a net reads.
pub(crate) fn wire_reads(
    alloc: Global,
    circuit: &Circuit,
    wire: &Wire,
) -> Result<Vec<Read>, NoMemory>
    ensures { IfOk result (λ reads. reads.items ≡ reads_of_wire circuit.now wire.now) }
{
    let mut reads = Vec::new(alloc);
    for unit in wire.drivers.items() {
        add_driver(&mut reads, circuit, *unit)?;
    }
    Ok(reads)
}

/// What a visible register reads.
pub(crate) fn reset_reads(alloc: Global, register: &Register) -> Result<Vec<Read>, NoMemory>
    ensures { IfOk result (λ reads. reads.items ≡ row_reads register.now.reset) }
{
    let mut reads = Vec::new(alloc);
    add_row(&mut reads, &register.reset)?;
    Ok(reads)
}
