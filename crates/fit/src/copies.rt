ghost use Rattle.std.specs.Prelude.{◌≡◌, IfOk};

use mig_base::{Gate, Items, Literal, NoMemory};
use new_board::PlacedUnit;
use std::alloc::Global;

fn copied_product(alloc: Global, lits: &[Literal]) -> Result<Items<Literal>, NoMemory>
    ensures { IfOk result (λ copy. copy ≡ lits.now) }
{
    Ok(Items::new(lits.to_vec(alloc)?))
}

/// A copy of some products.
pub(crate) fn copied_terms(
    alloc: Global,
    terms: &[Items<Literal>],
) -> Result<Items<Items<Literal>>, NoMemory>
    ensures { IfOk result (λ copy. copy ≡ terms.now) }
{
    let mut copy = Vec::with_capacity(alloc, terms.len())?;
    for term in terms {
        copy.push(copied_product(alloc, term.items())?)?;
    }
    Ok(Items::new(copy))
}

/// The row of one product.
pub(crate) fn product_gate(alloc: Global, lits: &[Literal]) -> Result<Gate, NoMemory>
    ensures { IfOk result (λ gate. gate ≡ Gate.Product lits.now) }
{
    let product = copied_product(alloc, lits)?;
    Ok(Gate::Product(product))
}

fn copied_gate(alloc: Global, gate: &Gate) -> Result<Gate, NoMemory>
    ensures { IfOk result (λ copy. copy ≡ gate.now) }
{
    match gate {
        Gate::Never => Ok(Gate::Never),
        Gate::Product(lits) => product_gate(alloc, lits.items()),
    }
}

/// A copy of a placed unit.
pub(crate) fn copied_unit(alloc: Global, unit: &PlacedUnit) -> Result<PlacedUnit, NoMemory>
    ensures { IfOk result (λ copy. copy ≡ unit.now) }
{
    let terms = copied_terms(alloc, unit.terms.items())?;
    let enable = copied_gate(alloc, &unit.enable)?;
    let reset = copied_gate(alloc, &unit.reset)?;
    let preset = copied_gate(alloc, &unit.preset)?;
    Ok(PlacedUnit {
        pin: unit.pin,
        unit: unit.unit,
        low: unit.low,
        terms,
        enable,
        reset,
        preset,
    })
}
