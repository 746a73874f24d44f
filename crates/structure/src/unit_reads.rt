ghost use Rattle.std.specs.Prelude.{◌≡◌, Some, slice_get};
ghost use Rattle.mig_base.specs.Values.{product_reads, sum_reads, row_reads};
ghost use Rattle.mig_base.specs.Reads.{edge_reads};
ghost use Rattle.structure.specs.NodeSets.{with_nodes};
ghost use Rattle.structure.specs.Live.{part_reads, reads_of_unit, reads_at_edge};

use crate::sets::NodeSet;
use mig_base::{Circuit, Driver, Gate, Gives, Items, Literal, Register};

/// Adds the sources of a product to a set.
fn add_product(set: &mut NodeSet, literals: &[Literal])
    ensures { set.new ≡ with_nodes set.old (product_reads literals.now) }
{
    for literal in literals {
        set.add(literal.source);
    }
}

/// Adds the sources of a row.
fn add_row(set: &mut NodeSet, row: &Gate)
    ensures { set.new ≡ with_nodes set.old (row_reads row.now) }
{
    match row {
        Gate::Never => {}
        Gate::Product(literals) => add_product(set, literals.items()),
    }
}

/// Adds the sources of a sum.
fn add_sum(set: &mut NodeSet, terms: &[Items<Literal>])
    ensures { set.new ≡ with_nodes set.old (sum_reads terms.now) }
{
    for term in terms {
        add_product(set, term.items());
    }
}

/// Adds what a register reads at an edge of its clock.
fn add_register(set: &mut NodeSet, register: &Register)
    ensures { set.new ≡ with_nodes set.old (edge_reads register.now) }
{
    add_sum(set, register.terms.items());
    add_row(set, &register.preset);
    add_row(set, &register.reset);
}

/// Adds what a register reads at an edge of its clock, by its number.
fn add_register_at(set: &mut NodeSet, circuit: &Circuit, register: u32)
    ensures { set.new ≡ with_nodes set.old (reads_at_edge (slice_get circuit.now.registers register)) }
{
    match circuit.registers.items().get(register as usize) {
        None => {}
        Some(register) => add_register(set, register),
    }
}

/// Adds the sources of a unit's terms and, if it is registered, of its preset and its reset.
fn add_part(set: &mut NodeSet, circuit: &Circuit, gives: &Gives)
    ensures { set.new ≡ with_nodes set.old (part_reads circuit.now gives.now) }
{
    match gives {
        Gives::Sum(terms) => add_sum(set, terms.items()),
        Gives::Visible(register) => add_register_at(set, circuit, *register),
    }
}

/// Adds what a unit reads.
pub(crate) fn add_unit(set: &mut NodeSet, circuit: &Circuit, unit: &Driver)
    ensures { set.new ≡ with_nodes set.old (reads_of_unit circuit.now (Some unit.now)) }
{
    add_row(set, &unit.enable);
    add_part(set, circuit, &unit.gives);
}
