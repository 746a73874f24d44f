ghost use Rattle.std.specs.Prelude.{◌≡◌, IfOk};
ghost use Rattle.mig_base.specs.Cells.{columns_of as columns_in, is_among, lit_of, pair_columns};
ghost use Rattle.mig_base.specs.WellFormed.{chip_columns as columns_in_chip, registers_in};

use crate::tables::{even_reads_q, pair_pins};
use mig_base::{Cell, ChipCells, Form, Kind, Lit, Mode, NoMemory, Source};
use std::alloc::Global;

/// What the even or the odd column of the pair of a pin reads.
fn literal(even_q: bool, registers: &[u8], pin: u8, even: bool) -> Lit
    ensures { result ≡ lit_of even_q registers.now pin even }
{
    if registers.contains(&pin) {
        Lit {
            source: Source::Reg(pin),
            high: if even_q { even } else { !even },
        }
    } else {
        Lit {
            source: Source::Pin(pin),
            high: even,
        }
    }
}

/// What each column reads, where these pins are registered: two columns for each pin, the even one first.
pub fn columns(
    alloc: Global,
    even_q: bool,
    registers: &[u8],
    pins: &[u8],
) -> Result<Vec<Lit>, NoMemory>
    ensures { IfOk result (λ columns. columns.items ≡ pair_columns even_q registers.now pins.now) }
{
    let mut columns = Vec::new(alloc);
    for pin in pins {
        columns.push(literal(even_q, registers, *pin, true))?;
        columns.push(literal(even_q, registers, *pin, false))?;
    }
    Ok(columns)
}

/// What the columns of a kind and mode read, where these pins are registered.
pub fn columns_of(
    alloc: Global,
    kind: Kind,
    mode: Mode,
    registers: &[u8],
) -> Result<Vec<Lit>, NoMemory>
    ensures { IfOk result (λ columns. columns.items ≡ columns_in kind mode registers.now) }
{
    columns(alloc, even_reads_q(kind), registers, pair_pins(kind, mode))
}

/// The pins of the registered cells.
fn registers(alloc: Global, cells: &[Cell]) -> Result<Vec<u8>, NoMemory>
    ensures { IfOk result (λ pins. pins.items ≡ registers_in cells.now) }
{
    let mut pins = Vec::new(alloc);
    for cell in cells {
        if cell.form == Form::Reg {
            pins.push(cell.pin)?;
        }
    }
    Ok(pins)
}

/// What the columns of a chip with these cells read.
pub fn chip_columns(alloc: Global, cells: &ChipCells) -> Result<Vec<Lit>, NoMemory>
    ensures { IfOk result (λ columns. columns.items ≡ columns_in_chip cells.now) }
{
    let registers = registers(alloc, cells.cells.items())?;
    columns_of(alloc, cells.kind, cells.mode, &registers)
}
