ghost use Rattle.std.specs.Prelude.{◌≡◌, slice_get, OnOk};
ghost use Rattle.std.specs.List.{flat_map};
ghost use Rattle.mig_base.specs.Values.{product_reads, sum_reads, row_reads};
ghost use Rattle.mig_base.specs.Reads.{gives_reads, driver_reads};
ghost use Rattle.reader_lists.specs.Lists.{Adds};

use crate::lists::Reader;
use crate::readers::Readers;
use mig_base::{Circuit, Gate, Gives, Items, Literal, NoMemory, Read};

/// Adds a reader of the sources of a product.
fn add_product(readers: &mut Readers, reader: Reader, literals: &[Literal]) -> Result<(), NoMemory>
    ensures { OnOk result (Adds readers.old reader (product_reads literals.now) readers.new) }
{
    for literal in literals {
        readers.add(literal.source, reader)?;
    }
    Ok(())
}

/// Adds a reader of the sources of a row.
pub(crate) fn add_row(readers: &mut Readers, reader: Reader, row: &Gate) -> Result<(), NoMemory>
    ensures { OnOk result (Adds readers.old reader (row_reads row.now) readers.new) }
{
    match row {
        Gate::Never => Ok(()),
        Gate::Product(literals) => add_product(readers, reader, literals.items()),
    }
}

/// Adds a reader of the sources of a sum.
fn add_sum(readers: &mut Readers, reader: Reader, terms: &[Items<Literal>]) -> Result<(), NoMemory>
    ensures { OnOk result (Adds readers.old reader (sum_reads terms.now) readers.new) }
{
    for term in terms {
        add_product(readers, reader, term.items())?;
    }
    Ok(())
}

/// Adds a reader of the sources of a unit's terms, or of its visible Q.
fn add_gives(readers: &mut Readers, reader: Reader, gives: &Gives) -> Result<(), NoMemory>
    ensures { OnOk result (Adds readers.old reader (gives_reads gives.now) readers.new) }
{
    match gives {
        Gives::Sum(terms) => add_sum(readers, reader, terms.items()),
        Gives::Visible(register) => readers.add(Read::OfRegister(*register), reader),
    }
}

/// Adds a reader of what a unit reads, where the board has that unit.
pub(crate) fn add_driver(
    readers: &mut Readers,
    circuit: &Circuit,
    reader: Reader,
    unit: u32,
) -> Result<(), NoMemory>
    ensures { OnOk result (Adds readers.old reader (driver_reads (slice_get circuit.now.units unit)) readers.new) }
{
    let units = circuit.units.items();
    let unit = unit as usize;
    if unit < units.len() {
        let driver = &units[unit];
        add_row(readers, reader, &driver.enable)?;
        add_gives(readers, reader, &driver.gives)?;
    }
    Ok(())
}

/// Adds a reader of what these units read.
pub(crate) fn add_drivers(
    readers: &mut Readers,
    circuit: &Circuit,
    reader: Reader,
    drivers: &[u32],
) -> Result<(), NoMemory>
    ensures { OnOk result (Adds readers.old reader (flat_map (λ u. driver_reads (slice_get circuit.now.units u)) drivers.now) readers.new) }
{
    for unit in drivers {
        add_driver(readers, circuit, reader, *unit)?;
    }
    Ok(())
}
