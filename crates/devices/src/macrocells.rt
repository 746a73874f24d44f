ghost use Rattle.std.specs.Prelude.{◌≡◌, IfOk};
ghost use Rattle.mig_base.specs.Cells as cells;

use mig_base::{Cell, Enable, Form, Items, NoMemory, Product, Row};
use std::alloc::Global;

#[tactic(auto, using(crate::proofs::RowLemmas::row_rules))]
/// The terms of rows: those that are not constant 0.
fn terms(alloc: Global, rows: Vec<Row>) -> Result<Items<Product>, NoMemory>
    ensures { IfOk result (λ terms. terms ≡ cells.terms_of rows.items) }
{
    let mut terms = Vec::new(alloc);
    for row in rows {
        match row {
            Row::Never => {}
            Row::Product(product) => terms.push(product)?,
        }
    }
    Ok(Items::new(terms))
}

/// The enable that a row makes.
fn enable(row: Row) -> Enable
    ensures { result ≡ cells.enable_of row }
{
    match row {
        Row::Never => Enable::Never,
        Row::Product(product) => {
            if product.items().is_empty() {
                Enable::Always
            } else {
                Enable::Term(product)
            }
        }
    }
}

/// A macrocell that drives nothing.
pub fn idle(alloc: Global, pin: u8) -> Cell
    ensures { result ≡ cells.idle pin }
{
    Cell {
        pin,
        form: Form::Idle,
        low: false,
        pin_low: false,
        enable: Enable::Never,
        terms: Items::new(Vec::new(alloc)),
    }
}

/// A combinational macrocell, the first of whose rows is its enable. It is idle where that is constant 0.
pub fn combinational(
    alloc: Global,
    pin: u8,
    low: bool,
    mut rows: Vec<Row>,
) -> Result<Cell, NoMemory>
    ensures { IfOk result (λ cell. cell ≡ cells.comb_cell pin low rows.items) }
{
    if rows.is_empty() {
        return Ok(idle(alloc, pin));
    }
    let first = rows.remove(0);
    if let Row::Never = first {
        return Ok(idle(alloc, pin));
    }
    let enable = enable(first);
    let terms = terms(alloc, rows)?;
    Ok(Cell {
        pin,
        form: Form::Comb,
        low,
        pin_low: false,
        enable,
        terms,
    })
}

/// A combinational macrocell that is always enabled: each of its rows is a term.
pub fn output(alloc: Global, pin: u8, low: bool, rows: Vec<Row>) -> Result<Cell, NoMemory>
    ensures { IfOk result (λ cell. cell ≡ cells.output_cell pin low rows.items) }
{
    let terms = terms(alloc, rows)?;
    Ok(Cell {
        pin,
        form: Form::Comb,
        low,
        pin_low: false,
        enable: Enable::Always,
        terms,
    })
}

/// A registered macrocell that the chip's low-active enable pin enables. Its D is the sum of the rows or the complement, the pin NOT Q.
pub fn registered(
    alloc: Global,
    pin: u8,
    low: bool,
    enable_pin: u8,
    rows: Vec<Row>,
) -> Result<Cell, NoMemory>
    ensures { IfOk result (λ cell. cell ≡ cells.reg_cell pin low enable_pin rows.items) }
{
    let terms = terms(alloc, rows)?;
    Ok(Cell {
        pin,
        form: Form::Reg,
        low,
        pin_low: true,
        enable: Enable::LowPin(enable_pin),
        terms,
    })
}

/// A registered macrocell, the first of whose rows is its enable. Its D is the sum of the others, the pin Q or NOT Q.
/// It is idle where there are no rows.
pub fn registered_by_row(
    alloc: Global,
    pin: u8,
    pin_low: bool,
    mut rows: Vec<Row>,
) -> Result<Cell, NoMemory>
    ensures { IfOk result (λ cell. cell ≡ cells.reg_cell_22 pin pin_low rows.items) }
{
    if rows.is_empty() {
        return Ok(idle(alloc, pin));
    }
    let enable = enable(rows.remove(0));
    let terms = terms(alloc, rows)?;
    Ok(Cell {
        pin,
        form: Form::Reg,
        low: false,
        pin_low,
        enable,
        terms,
    })
}
