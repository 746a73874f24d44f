ghost use Rattle.std.specs.Prelude.{◌≡◌, ◌++◌, OnOk, reverse};
ghost use Rattle.std.specs.List.{flat_map};
ghost use Rattle.mig_base.specs.WrittenCells.{row_fuses};
ghost use Rattle.mig_base.specs.Written22 as written;

use devices::{chip_columns, push_cell, push_row, rows_of};
use mig_base::{Cell, ChipCells, Form, Lit, Mode, NoMemory};
use std::alloc::{AllocError, Global};

/// Adds the rows of the cells, by falling pin.
fn push_cells(
    mode: Mode,
    columns: &[Lit],
    cells: &[Cell],
    fuses: &mut Vec<bool>,
) -> Result<(), AllocError>
    ensures { OnOk result (fuses.new.items ≡ fuses.old.items ++ flat_map (row_fuses columns.now) (flat_map (written.rows_of_cell mode) (reverse cells.now))) }
{
    for cell in cells.iter().rev() {
        push_cell(mode, columns, rows_of(cell.pin).terms + 1, cell, fuses)?;
    }
    Ok(())
}

/// Adds the array: the reset row, the rows of the cells by falling pin, the preset row.
pub fn push_array(alloc: Global, chip: &ChipCells, fuses: &mut Vec<bool>) -> Result<(), NoMemory>
    ensures { OnOk result (fuses.new.items ≡ fuses.old.items ++ written.v22_array chip.now) }
{
    let columns = chip_columns(alloc, chip)?;
    push_row(&columns, &chip.reset, fuses)?;
    push_cells(chip.mode, &columns, chip.cells.items(), fuses)?;
    push_row(&columns, &chip.preset, fuses)?;
    Ok(())
}

/// The S0 fuse of a cell.
fn s0_fuse(cell: &Cell) -> bool
    ensures { result ≡ written.s0_fuse cell.now }
{
    match cell.form {
        Form::Idle => false,
        Form::Comb => !cell.low,
        Form::Reg => !cell.pin_low,
    }
}

/// The S1 fuse of a cell.
fn s1_fuse(cell: &Cell) -> bool
    ensures { result ≡ written.s1_fuse cell.now }
{
    cell.form != Form::Reg
}

/// Adds S0 and S1 of each cell, by falling pin.
pub fn push_settings(cells: &[Cell], fuses: &mut Vec<bool>) -> Result<(), AllocError>
    ensures { OnOk result (fuses.new.items ≡ fuses.old.items ++ flat_map written.settings (reverse cells.now)) }
{
    for cell in cells.iter().rev() {
        fuses.push(s0_fuse(cell))?;
        fuses.push(s1_fuse(cell))?;
    }
    Ok(())
}
