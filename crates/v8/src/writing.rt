ghost use Rattle.std.specs.Prelude.{◌≡◌, ◌++◌, OnOk, map, reverse};
ghost use Rattle.mig_base.specs.WrittenCells as written;

use devices::{CELL_ROWS, ROWS, SIGNATURE, chip_columns, push_cell, push_states};
use mig_base::{Cell, ChipCells, Form, Mode, NoMemory};
use std::alloc::{AllocError, Global};

/// Adds the array: eight rows for each cell, by falling pin.
pub fn push_array(alloc: Global, cells: &ChipCells, fuses: &mut Vec<bool>) -> Result<(), NoMemory>
    ensures { OnOk result (fuses.new.items ≡ fuses.old.items ++ written.v8_array cells.now) }
{
    let columns = chip_columns(alloc, cells)?;
    for cell in cells.cells.items().iter().rev() {
        push_cell(cells.mode, &columns, CELL_ROWS, cell, fuses)?;
    }
    Ok(())
}

/// The XOR bit of a cell.
fn xor_fuse(cell: &Cell) -> bool
    ensures { result ≡ written.xor_fuse cell.now }
{
    match cell.form {
        Form::Idle => false,
        Form::Comb => !cell.low,
        Form::Reg => cell.low,
    }
}

/// The AC1 bit of a cell.
fn ac1_fuse(mode: Mode, cell: &Cell) -> bool
    ensures { result ≡ written.ac1_fuse mode cell.now }
{
    match cell.form {
        Form::Idle => true,
        Form::Comb => mode != Mode::Simple,
        Form::Reg => false,
    }
}

/// The SYN bit.
fn syn_fuse(mode: Mode) -> bool
    ensures { result ≡ written.syn_fuse mode }
{
    mode != Mode::Registered
}

/// The AC0 bit.
fn ac0_fuse(mode: Mode) -> bool
    ensures { result ≡ written.ac0_fuse mode }
{
    mode != Mode::Simple
}

/// Adds the XOR bits, by falling pin.
fn push_xor(cells: &[Cell], fuses: &mut Vec<bool>) -> Result<(), AllocError>
    ensures { OnOk result (fuses.new.items ≡ fuses.old.items ++ map written.xor_fuse (reverse cells.now)) }
{
    for cell in cells.iter().rev() {
        fuses.push(xor_fuse(cell))?;
    }
    Ok(())
}

/// Adds the AC1 bits, by falling pin.
fn push_ac1(mode: Mode, cells: &[Cell], fuses: &mut Vec<bool>) -> Result<(), AllocError>
    ensures { OnOk result (fuses.new.items ≡ fuses.old.items ++ map (written.ac1_fuse mode) (reverse cells.now)) }
{
    for cell in cells.iter().rev() {
        fuses.push(ac1_fuse(mode, cell))?;
    }
    Ok(())
}

/// Adds what stands behind the array: XOR, a signature of zeros, AC1, disable bits that disable nothing, SYN and AC0.
pub fn push_settings(cells: &ChipCells, fuses: &mut Vec<bool>) -> Result<(), AllocError>
    ensures { OnOk result (fuses.new.items ≡ fuses.old.items ++ written.v8_settings cells.now) }
{
    push_xor(cells.cells.items(), fuses)?;
    push_states(SIGNATURE, false, fuses)?;
    push_ac1(cells.mode, cells.cells.items(), fuses)?;
    push_states(ROWS, true, fuses)?;
    fuses.push(syn_fuse(cells.mode))?;
    fuses.push(ac0_fuse(cells.mode))?;
    Ok(())
}
