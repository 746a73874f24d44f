ghost use Rattle.std.specs.Prelude.{◌≡◌, ◌++◌, Some, slice_get};
ghost use Rattle.std.specs.List.{list_all};
ghost use Rattle.mig_base.specs.Values.{sum_reads, row_reads};
ghost use Rattle.mig_base.specs.Reads.{gives_reads, driver_reads, edge_reads};
ghost use Rattle.structure.specs.NodeSets.{contains};

use crate::sets::NodeSet;
use mig_base::{Circuit, Driver, Gate, Gives, Items, Literal, Read, Register};

/// Whether all sources of a product are in a set.
fn has_product(set: &NodeSet, literals: &[Literal]) -> bool
    ensures { result ≡ list_all (λ literal. contains set.now literal.source) literals.now }
{
    literals.iter().all(|literal| set.has(literal.source))
}

/// Whether all sources of a row are.
fn has_row(set: &NodeSet, row: &Gate) -> bool
    ensures { result ≡ list_all (contains set.now) (row_reads row.now) }
{
    match row {
        Gate::Never => true,
        Gate::Product(literals) => has_product(set, literals.items()),
    }
}

/// Whether all sources of a sum are.
fn has_sum(set: &NodeSet, terms: &[Items<Literal>]) -> bool
    ensures { result ≡ list_all (λ term. list_all (λ literal. contains set.now literal.source) term) terms.now }
{
    terms.iter().all(|term| has_product(set, term.items()))
}

/// Whether all sources of a unit's terms are, or its visible Q.
fn has_gives(set: &NodeSet, gives: &Gives) -> bool
    ensures { result ≡ list_all (contains set.now) (gives_reads gives.now) }
{
    match gives {
        Gives::Sum(terms) => has_sum(set, terms.items()),
        Gives::Visible(register) => set.has(Read::OfRegister(*register)),
    }
}

/// Whether all that a driver reads is in a set.
fn has_reads(set: &NodeSet, driver: &Driver) -> bool
    ensures { result ≡ list_all (contains set.now) (driver_reads (Some driver.now)) }
{
    has_row(set, &driver.enable) && has_gives(set, &driver.gives)
}

/// Whether all that a driver reads is in a set, by its unit's number.
pub(crate) fn has_driver(circuit: &Circuit, set: &NodeSet, unit: u32) -> bool
    ensures { result ≡ list_all (contains set.now) (driver_reads (slice_get circuit.now.units unit)) }
{
    match circuit.units.items().get(unit as usize) {
        None => true,
        Some(driver) => has_reads(set, driver),
    }
}

/// Whether all sources of a register's terms and preset are.
fn has_data(set: &NodeSet, register: &Register) -> bool
    ensures { result ≡ list_all (contains set.now) (sum_reads register.now.terms ++ row_reads register.now.preset) }
{
    has_sum(set, register.terms.items()) && has_row(set, &register.preset)
}

/// Whether all that a register reads at an edge of its clock is in a set.
pub(crate) fn has_register(set: &NodeSet, register: &Register) -> bool
    ensures { result ≡ list_all (contains set.now) (edge_reads register.now) }
{
    has_data(set, register) && has_row(set, &register.reset)
}
