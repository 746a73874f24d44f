ghost use Rattle.std.specs.Prelude.{◌≡◌, ◌≤◌, ◌<◌, ◌+◌, ◌*◌, ◌^◌, IfOk, length, not};
ghost use Rattle.std.specs.List.{list_all};
ghost use Rattle.mig_base.specs.First.{made_from};
ghost use Rattle.mig_base.specs.Cells.{lits_of, row_at, row_of};

use mig_base::{Lit, NoMemory, Product, Row};
use std::alloc::Global;

/// The columns whose fuses are 0.
fn literals(alloc: Global, columns: &[Lit], fuses: &[bool]) -> Result<Vec<Lit>, NoMemory>
    ensures { IfOk result (λ lits. lits.items ≡ lits_of columns.now fuses.now) }
{
    let mut literals = Vec::new(alloc);
    for (column, blown) in columns.iter().zip(fuses) {
        if !*blown {
            literals.push(*column)?;
        }
    }
    Ok(literals)
}

/// Whether no fuse is blown.
pub fn all_zero(fuses: &[bool]) -> bool
    ensures { result ≡ list_all not fuses.now }
{
    fuses.iter().all(|blown| !*blown)
}

/// The row of these fuses.
fn row(alloc: Global, columns: &[Lit], fuses: &[bool]) -> Result<Row, NoMemory>
    ensures { IfOk result (λ row. row ≡ row_of columns.now fuses.now) }
{
    if all_zero(fuses) {
        return Ok(Row::Never);
    }
    let literals = literals(alloc, columns, fuses)?;
    let product = Product::new(alloc, &literals)?;
    Ok(Row::Product(product))
}

/// One row of an array, counted from 0.
pub fn array_row(alloc: Global, columns: &[Lit], fuses: &[bool], r: usize) -> Result<Row, NoMemory>
    requires few { r < 2 ^ 16 }
    requires within { length columns.now * (r + 1) ≤ length fuses.now }
    ensures { IfOk result (λ row. row ≡ row_of columns.now (row_at (length columns.now) fuses.now r)) }
{
    let width = columns.len();
    row(alloc, columns, &fuses[width * r..width * r + width])
}

#[tactic(auto, using(crate::proofs::RowLemmas::row_rules))]
/// This many rows of an array, from this one on.
pub fn rows(
    alloc: Global,
    columns: &[Lit],
    fuses: &[bool],
    first: usize,
    count: usize,
) -> Result<Vec<Row>, NoMemory>
    requires few { first + count < 2 ^ 16 }
    requires within { length columns.now * (first + count) ≤ length fuses.now }
    ensures { IfOk result (λ rows. rows.items ≡ made_from (λ r. row_of columns.now (row_at (length columns.now) fuses.now r)) first count) }
{
    let mut rows = Vec::new(alloc);
    for r in first..first + count {
        rows.push(array_row(alloc, columns, fuses, r)?)?;
    }
    Ok(rows)
}
