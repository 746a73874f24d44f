ghost use Rattle.std.specs.Prelude.{◌≡◌, ◌≤◌, ◌+◌, ◌*◌, ◌-◌, IsTrue, IfOk, length, map};
ghost use Rattle.mig_base.specs.declared.kinds.Mode.TheVariants.{Fixed};
ghost use Rattle.mig_base.specs.DeviceTables.{is_22, cell_pins};
ghost use Rattle.mig_base.specs.Cells as fuse_cells;

use devices::{
    PRESET, RESET, array_row, columns_of, combinational, registered_by_row, rows, rows_of,
};
use mig_base::{Cell, ChipCells, Items, Kind, Lit, Mode, NoMemory};
use std::alloc::Global;

/// The place of S0 of pin 23. Its S1 follows, and then S0 and S1 of each lower pin.
const SETTINGS: usize = 5808;

/// Whether the S0 fuse of a pin is blown: a combinational pin is the sum, a registered one Q.
fn s0(fuses: &[bool], pin: u8) -> bool
    requires count { 5828 ≤ length fuses.now }
    requires pin { (14 ≤ pin) × (pin ≤ 23) }
    ensures { result ≡ fuse_cells.s0_at fuses.now pin }
{
    fuses[SETTINGS + 2 * (23 - pin) as usize]
}

/// Whether the S1 fuse of a pin is blown: its macrocell is combinational.
fn s1(fuses: &[bool], pin: u8) -> bool
    requires count { 5828 ≤ length fuses.now }
    requires pin { (14 ≤ pin) × (pin ≤ 23) }
    ensures { result ≡ fuse_cells.s1_at fuses.now pin }
{
    fuses[SETTINGS + 1 + 2 * (23 - pin) as usize]
}

/// The pins of the registers: those with S1 0.
fn registers(alloc: Global, fuses: &[bool]) -> Result<Vec<u8>, NoMemory>
    requires count { 5828 ≤ length fuses.now }
    ensures { (kind : Kind) → IsTrue (is_22 kind) → IfOk result (λ pins. pins.items ≡ fuse_cells.registers_22 kind fuses.now) }
{
    let mut pins = Vec::new(alloc);
    for pin in 14..24 {
        if !s1(fuses, pin) {
            pins.push(pin)?;
        }
    }
    Ok(pins)
}

/// What the columns read.
fn columns(alloc: Global, kind: Kind, fuses: &[bool]) -> Result<Vec<Lit>, NoMemory>
    requires kind { IsTrue (is_22 kind) }
    requires count { 5828 ≤ length fuses.now }
    ensures literals { IfOk result (λ columns. columns.items ≡ fuse_cells.columns_of kind Fixed (fuse_cells.registers_22 kind fuses.now)) }
    ensures width { IfOk result (λ columns. length columns.items ≡ 44) }
{
    let registers = registers(alloc, fuses)?;
    columns_of(alloc, kind, Mode::Fixed, &registers)
}

/// The macrocell of a pin.
fn cell(
    alloc: Global,
    kind: Kind,
    columns: &[Lit],
    fuses: &[bool],
    pin: u8,
) -> Result<Cell, NoMemory>
    requires kind { IsTrue (is_22 kind) }
    requires count { 5828 ≤ length fuses.now }
    requires literals { columns.now ≡ fuse_cells.columns_of kind Fixed (fuse_cells.registers_22 kind fuses.now) }
    requires width { length columns.now ≡ 44 }
    requires pin { (14 ≤ pin) × (pin ≤ 23) }
    ensures { IfOk result (λ cell. cell ≡ fuse_cells.cell_22 kind fuses.now pin) }
{
    let place = rows_of(pin);
    let rows = rows(alloc, columns, fuses, place.first, place.terms + 1)?;
    let low = !s0(fuses, pin);
    if s1(fuses, pin) {
        combinational(alloc, pin, low, rows)
    } else {
        registered_by_row(alloc, pin, low, rows)
    }
}

/// The macrocells, by rising pin.
fn cell_list(
    alloc: Global,
    kind: Kind,
    columns: &[Lit],
    fuses: &[bool],
) -> Result<Vec<Cell>, NoMemory>
    requires kind { IsTrue (is_22 kind) }
    requires count { 5828 ≤ length fuses.now }
    requires literals { columns.now ≡ fuse_cells.columns_of kind Fixed (fuse_cells.registers_22 kind fuses.now) }
    requires width { length columns.now ≡ 44 }
    ensures { IfOk result (λ cells. cells.items ≡ map (fuse_cells.cell_22 kind fuses.now) (cell_pins kind)) }
{
    let mut cells = Vec::new(alloc);
    for pin in 14..24 {
        cells.push(cell(alloc, kind, columns, fuses, pin)?)?;
    }
    Ok(cells)
}

/// The cells of a chip, with its reset and its preset row.
pub fn chip(alloc: Global, kind: Kind, fuses: &[bool]) -> Result<ChipCells, NoMemory>
    requires kind { IsTrue (is_22 kind) }
    requires count { 5828 ≤ length fuses.now }
    ensures { IfOk result (λ chip. chip ≡ fuse_cells.cells_22 kind fuses.now) }
{
    let columns = columns(alloc, kind, fuses)?;
    let cells = cell_list(alloc, kind, &columns, fuses)?;
    let reset = array_row(alloc, &columns, fuses, RESET)?;
    let preset = array_row(alloc, &columns, fuses, PRESET)?;
    Ok(ChipCells {
        kind,
        mode: Mode::Fixed,
        cells: Items::new(cells),
        reset,
        preset,
    })
}
