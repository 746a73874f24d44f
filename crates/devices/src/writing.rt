ghost use Rattle.std.specs.Prelude.{◌≡◌, ◌++◌, OnOk, length, map, replicate};
ghost use Rattle.std.specs.List.{flat_map};
ghost use Rattle.mig_base.specs.declared.cells.Row.TheVariants as row;
ghost use Rattle.mig_base.specs.WrittenCells.{cell_rows, enable_rows, has_lit, row_fuses};

use mig_base::{Cell, Enable, Lit, Mode, Product, Row};
use std::alloc::AllocError;

/// Whether the literal is one of these.
fn has_literal(lits: &[Lit], literal: &Lit) -> bool
    ensures { result ≡ has_lit lits.now literal.now }
{
    lits.contains(literal)
}

/// Adds the fuses of a product: 0 in the columns of its literals.
fn push_product(columns: &[Lit], lits: &[Lit], fuses: &mut Vec<bool>) -> Result<(), AllocError>
    ensures { OnOk result (fuses.new.items ≡ fuses.old.items ++ row_fuses columns.now (row.Product lits.now)) }
{
    for column in columns {
        fuses.push(!has_literal(lits, column))?;
    }
    Ok(())
}

/// Adds a row of zeros, which is constant 0.
fn push_zeros(columns: &[Lit], fuses: &mut Vec<bool>) -> Result<(), AllocError>
    ensures { OnOk result (fuses.new.items ≡ fuses.old.items ++ row_fuses columns.now row.Never) }
{
    for _column in columns {
        fuses.push(false)?;
    }
    Ok(())
}

/// Adds the fuses of a row.
pub fn push_row(columns: &[Lit], row: &Row, fuses: &mut Vec<bool>) -> Result<(), AllocError>
    ensures { OnOk result (fuses.new.items ≡ fuses.old.items ++ row_fuses columns.now row.now) }
{
    match row {
        Row::Never => push_zeros(columns, fuses),
        Row::Product(product) => push_product(columns, product.items(), fuses),
    }
}

/// Adds so many rows of zeros.
fn push_unused(columns: &[Lit], count: usize, fuses: &mut Vec<bool>) -> Result<(), AllocError>
    ensures { OnOk result (fuses.new.items ≡ fuses.old.items ++ flat_map (row_fuses columns.now) (replicate count row.Never)) }
{
    for _row in 0..count {
        push_zeros(columns, fuses)?;
    }
    Ok(())
}

/// Adds the enable row of a cell, where it has one.
fn push_enable(
    mode: Mode,
    columns: &[Lit],
    enable: &Enable,
    fuses: &mut Vec<bool>,
) -> Result<(), AllocError>
    ensures { OnOk result (fuses.new.items ≡ fuses.old.items ++ flat_map (row_fuses columns.now) (enable_rows mode enable.now)) }
{
    if mode == Mode::Simple {
        return Ok(());
    }
    match enable {
        Enable::Always => push_product(columns, &[], fuses),
        Enable::Never => push_zeros(columns, fuses),
        Enable::Term(term) => push_product(columns, term.items(), fuses),
        Enable::LowPin(_) => Ok(()),
    }
}

/// Adds the rows of terms.
fn push_terms(columns: &[Lit], terms: &[Product], fuses: &mut Vec<bool>) -> Result<(), AllocError>
    ensures { OnOk result (fuses.new.items ≡ fuses.old.items ++ flat_map (row_fuses columns.now) (map (λ lits. row.Product lits) terms.now)) }
{
    for term in terms {
        push_product(columns, term.items(), fuses)?;
    }
    Ok(())
}

/// The number of enable rows of a cell: one or none.
fn enable_row_count(mode: Mode, enable: &Enable) -> usize
    ensures { result ≡ length (enable_rows mode enable.now) }
{
    match (mode, enable) {
        (Mode::Simple, _) | (_, Enable::LowPin(_)) => 0,
        _ => 1,
    }
}

/// Adds the rows of a macrocell that has so many: its enable, its terms, and rows of zeros.
pub fn push_cell(
    mode: Mode,
    columns: &[Lit],
    count: usize,
    cell: &Cell,
    fuses: &mut Vec<bool>,
) -> Result<(), AllocError>
    ensures { OnOk result (fuses.new.items ≡ fuses.old.items ++ flat_map (row_fuses columns.now) (cell_rows mode count cell.now)) }
{
    let terms = cell.terms.items();
    push_enable(mode, columns, &cell.enable, fuses)?;
    push_terms(columns, terms, fuses)?;
    let unused = count
        .saturating_sub(enable_row_count(mode, &cell.enable))
        .saturating_sub(terms.len());
    push_unused(columns, unused, fuses)
}

/// Adds so many fuses of one state.
pub fn push_states(count: usize, state: bool, fuses: &mut Vec<bool>) -> Result<(), AllocError>
    ensures { OnOk result (fuses.new.items ≡ fuses.old.items ++ replicate count state) }
{
    for _fuse in 0..count {
        fuses.push(state)?;
    }
    Ok(())
}
