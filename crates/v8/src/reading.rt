ghost use Rattle.std.specs.Prelude.{◌≡◌, ◌≤◌, ◌<◌, ◌+◌, ◌*◌, IsTrue, IfOk, Some, length, map};
ghost use Rattle.std.specs.Option.{option_map};
ghost use Rattle.mig_base.specs.declared.cells.ChipError.TheVariants.{Ac1InComplex as refused_at};
ghost use Rattle.mig_base.specs.First.{made_from};
ghost use Rattle.mig_base.specs.DeviceTables as device;
ghost use Rattle.mig_base.specs.WellFormed.{has_mode};
ghost use Rattle.mig_base.specs.declared.kinds.Mode.TheVariants.{Complex};
ghost use Rattle.mig_base.specs.Cells as cells;
ghost use Rattle.v8.specs.DisabledRows.{row_over};

use crate::settings::{ac1, is_enabled, xor};
use devices::{
    CELL_ROWS, all_zero, array_row, columns_of, combinational, idle, output, registered, top_pin,
    width,
};
use mig_base::{Cell, ChipCells, ChipError, Items, Kind, Lit, Mode, NoMemory, Row, enable_pin};
use std::alloc::Global;

/// Whether a macrocell can't stand in complex mode: its AC1 fuse is 0, and its rows have a 1.
fn is_bad_complex(kind: Kind, fuses: &[bool], pin: u8) -> bool
    requires kind { IsTrue (device.is_v8 kind) }
    requires count { length fuses.now ≡ cells.array_size kind + 146 }
    requires pin { (pin ≤ device.top_pin kind) × (device.top_pin kind < pin + 8) }
    ensures { result ≡ cells.is_bad_complex kind fuses.now pin }
{
    if ac1(kind, fuses, pin) {
        return false;
    }
    let size = CELL_ROWS * width(kind);
    let first = size * (top_pin(kind) - pin) as usize;
    !all_zero(&fuses[first..first + size])
}

/// The pin of the first macrocell in row order that can't stand in complex mode.
fn bad_complex(kind: Kind, fuses: &[bool]) -> Option<u8>
    requires kind { IsTrue (device.is_v8 kind) }
    requires count { length fuses.now ≡ cells.array_size kind + 146 }
    ensures { option_map (λ pin. refused_at pin) result ≡ cells.v8_refusal kind fuses.now Complex }
{
    for place in 0..8 {
        let pin = top_pin(kind) - place;
        if is_bad_complex(kind, fuses, pin) {
            return Some(pin);
        }
    }
    None
}

/// The pin of the macrocell for which the fuses are refused in this mode.
fn refused_pin(kind: Kind, mode: Mode, fuses: &[bool]) -> Option<u8>
    requires kind { IsTrue (device.is_v8 kind) }
    requires count { length fuses.now ≡ cells.array_size kind + 146 }
    ensures { option_map (λ pin. refused_at pin) result ≡ cells.v8_refusal kind fuses.now mode }
{
    match mode {
        Mode::Complex => bad_complex(kind, fuses),
        _ => None,
    }
}

/// The pins of the registers: in registered mode those with AC1 0.
fn registers(alloc: Global, kind: Kind, mode: Mode, fuses: &[bool]) -> Result<Vec<u8>, NoMemory>
    requires kind { IsTrue (device.is_v8 kind) }
    requires count { length fuses.now ≡ cells.array_size kind + 146 }
    ensures { IfOk result (λ pins. pins.items ≡ cells.v8_registers kind mode fuses.now) }
{
    let mut pins = Vec::new(alloc);
    if mode != Mode::Registered {
        return Ok(pins);
    }
    let top = top_pin(kind);
    for pin in top - 7..top + 1 {
        if !ac1(kind, fuses, pin) {
            pins.push(pin)?;
        }
    }
    Ok(pins)
}

/// A row of the array.
fn row(
    alloc: Global,
    kind: Kind,
    columns: &[Lit],
    fuses: &[bool],
    r: usize,
) -> Result<Row, NoMemory>
    requires kind { IsTrue (device.is_v8 kind) }
    requires count { length fuses.now ≡ cells.array_size kind + 146 }
    requires width { length columns.now ≡ device.array_width kind }
    requires row { r < 64 }
    ensures { IfOk result (λ row. row ≡ row_over kind columns.now fuses.now r) }
{
    if is_enabled(kind, fuses, r) {
        array_row(alloc, columns, fuses, r)
    } else {
        Ok(Row::Never)
    }
}

/// The eight rows of the macrocell of a pin.
fn rows(
    alloc: Global,
    kind: Kind,
    columns: &[Lit],
    fuses: &[bool],
    pin: u8,
) -> Result<Vec<Row>, NoMemory>
    requires kind { IsTrue (device.is_v8 kind) }
    requires count { length fuses.now ≡ cells.array_size kind + 146 }
    requires width { length columns.now ≡ device.array_width kind }
    requires pin { (pin ≤ device.top_pin kind) × (device.top_pin kind < pin + 8) }
    ensures { IfOk result (λ rows. rows.items ≡ made_from (row_over kind columns.now fuses.now) (8 * cells.cell_place kind pin) 8) }
{
    let first = CELL_ROWS * (top_pin(kind) - pin) as usize;
    let mut rows = Vec::new(alloc);
    for r in first..first + CELL_ROWS {
        rows.push(row(alloc, kind, columns, fuses, r)?)?;
    }
    Ok(rows)
}

/// A macrocell by its mode, its AC1 and XOR fuses and its rows.
fn cell_of(
    alloc: Global,
    kind: Kind,
    mode: Mode,
    ac1: bool,
    xor: bool,
    pin: u8,
    rows: Vec<Row>,
) -> Result<Cell, NoMemory>
    ensures { IfOk result (λ cell. cell ≡ cells.v8_cell_of kind mode ac1 xor pin rows.items) }
{
    match (mode, ac1) {
        (Mode::Simple, false) => output(alloc, pin, !xor, rows),
        (Mode::Simple, true) | (Mode::Complex, false) => Ok(idle(alloc, pin)),
        (_, true) => combinational(alloc, pin, !xor, rows),
        (_, false) => registered(alloc, pin, xor, enable_pin(kind), rows),
    }
}

/// The macrocell of a pin.
fn cell(
    alloc: Global,
    kind: Kind,
    mode: Mode,
    columns: &[Lit],
    fuses: &[bool],
    pin: u8,
) -> Result<Cell, NoMemory>
    requires kind { IsTrue (device.is_v8 kind) }
    requires count { length fuses.now ≡ cells.array_size kind + 146 }
    requires width { length columns.now ≡ device.array_width kind }
    requires columns { columns.now ≡ cells.columns_of kind mode (cells.v8_registers kind mode fuses.now) }
    requires pin { (pin ≤ device.top_pin kind) × (device.top_pin kind < pin + 8) }
    ensures { IfOk result (λ cell. cell ≡ cells.v8_cell kind mode fuses.now pin) }
{
    let rows = rows(alloc, kind, columns, fuses, pin)?;
    let (ac1, xor) = (ac1(kind, fuses, pin), xor(kind, fuses, pin));
    cell_of(alloc, kind, mode, ac1, xor, pin, rows)
}

/// What the columns read.
fn columns(alloc: Global, kind: Kind, mode: Mode, fuses: &[bool]) -> Result<Vec<Lit>, NoMemory>
    requires kind { IsTrue (device.is_v8 kind) }
    requires mode { IsTrue (has_mode kind mode) }
    requires count { length fuses.now ≡ cells.array_size kind + 146 }
    ensures literals { IfOk result (λ columns. columns.items ≡ cells.columns_of kind mode (cells.v8_registers kind mode fuses.now)) }
    ensures width { IfOk result (λ columns. length columns.items ≡ device.array_width kind) }
{
    let registers = registers(alloc, kind, mode, fuses)?;
    columns_of(alloc, kind, mode, &registers)
}

/// The macrocells, by rising pin.
fn cell_list(alloc: Global, kind: Kind, mode: Mode, fuses: &[bool]) -> Result<Vec<Cell>, NoMemory>
    requires kind { IsTrue (device.is_v8 kind) }
    requires mode { IsTrue (has_mode kind mode) }
    requires count { length fuses.now ≡ cells.array_size kind + 146 }
    ensures { IfOk result (λ list. list.items ≡ map (cells.v8_cell kind mode fuses.now) (device.cell_pins kind)) }
{
    let columns = columns(alloc, kind, mode, fuses)?;
    let top = top_pin(kind);
    let mut cells = Vec::new(alloc);
    for pin in top - 7..top + 1 {
        cells.push(cell(alloc, kind, mode, &columns, fuses, pin)?)?;
    }
    Ok(cells)
}

/// The cells of a chip in a mode that its fuses say. `Ac1InComplex` where one of them can't stand in that mode.
pub fn cells_in(
    alloc: Global,
    kind: Kind,
    mode: Mode,
    fuses: &[bool],
) -> Result<ChipCells, ChipError>
    requires kind { IsTrue (device.is_v8 kind) }
    requires mode { IsTrue (has_mode kind mode) }
    requires count { length fuses.now ≡ cells.array_size kind + 146 }
    ensures { cells.AnswersCells result (cells.v8_cells_in kind fuses.now (Some mode)) }
{
    if let Some(pin) = refused_pin(kind, mode, fuses) {
        return Err(ChipError::Ac1InComplex { pin });
    }
    match cell_list(alloc, kind, mode, fuses) {
        Ok(cells) => Ok(ChipCells {
            kind,
            mode,
            cells: Items::new(cells),
            reset: Row::Never,
            preset: Row::Never,
        }),
        Err(_) => Err(ChipError::Memory),
    }
}
