ghost use Rattle.std.specs.Prelude.{◌≡◌, [], ◌∷◌, ◌++◌, map, filter, if◌then◌else◌, IfOk, OnOk, option_copied};
ghost use Rattle.std.specs.List.{flat_map};
ghost use Rattle.new_board.specs.NewChip.{needed_variables as variables_needed, gate_products, comb_products, products_by, placed_register, controls_of, chip_products};
ghost use Rattle.avail.specs.Needed.{are_read, AddsProducts, AddsSources};

use crate::old_board::Old;
use crate::planned::{PlannedChip, unit_register};
use crate::variables::same_read;
use mig_base::{Circuit, Gate, Items, Literal, NoMemory, Read, is_22};
use new_board::PlacedUnit;
use std::alloc::Global;

/// Adds the variables of a product.
fn push_product(lits: &[Literal], reads: &mut Vec<Read>) -> Result<(), NoMemory>
    ensures { OnOk result (AddsProducts reads.old.items reads.new.items (lits.now ∷ [])) }
{
    push_sources(lits, reads)?;
    Ok(())
}

/// Adds the variables of the literals of a product, as they are listed.
fn push_sources(lits: &[Literal], reads: &mut Vec<Read>) -> Result<(), NoMemory>
    ensures { OnOk result (AddsSources reads.old.items reads.new.items (map (λ x. x.source) lits.now)) }
{
    for lit in lits {
        push_variable(lit.source, reads)?;
    }
    Ok(())
}

/// Adds a variable that is not there yet.
fn push_variable(variable: Read, reads: &mut Vec<Read>) -> Result<(), NoMemory>
    ensures { OnOk result (AddsSources reads.old.items reads.new.items (variable ∷ [])) }
{
    if is_among(reads.as_slice(), variable) {
        return Ok(());
    }
    reads.push(variable)?;
    Ok(())
}

/// Adds those of a row.
fn push_gate(gate: &Gate, reads: &mut Vec<Read>) -> Result<(), NoMemory>
    ensures { OnOk result (AddsProducts reads.old.items reads.new.items (gate_products gate.now)) }
{
    match gate {
        Gate::Never => Ok(()),
        Gate::Product(lits) => push_product(lits.items(), reads),
    }
}

/// Adds those of products.
fn push_terms(terms: &[Items<Literal>], reads: &mut Vec<Read>) -> Result<(), NoMemory>
    ensures { OnOk result (AddsProducts reads.old.items reads.new.items terms.now) }
{
    for term in terms {
        push_product(term.items(), reads)?;
    }
    Ok(())
}

/// Adds those of a combinational unit: its enable and its terms, or none where it is never enabled.
fn push_combinational(
    enable: &Gate,
    terms: &[Items<Literal>],
    reads: &mut Vec<Read>,
) -> Result<(), NoMemory>
    ensures { OnOk result (AddsProducts reads.old.items reads.new.items (comb_products enable.now terms.now)) }
{
    match enable {
        Gate::Never => Ok(()),
        Gate::Product(lits) => {
            push_product(lits.items(), reads)?;
            push_terms(terms, reads)
        }
    }
}

/// Adds those of a registered unit: its terms, and where rows enable it its enable.
fn push_registered(
    by_row: bool,
    enable: &Gate,
    terms: &[Items<Literal>],
    reads: &mut Vec<Read>,
) -> Result<(), NoMemory>
    ensures { OnOk result (AddsProducts reads.old.items reads.new.items (terms.now ++ (if by_row then gate_products enable.now else []))) }
{
    push_terms(terms, reads)?;
    if by_row {
        push_gate(enable, reads)?;
    }
    Ok(())
}

/// Adds those of a unit.
fn push_unit(
    circuit: &Circuit,
    by_row: bool,
    unit: &PlacedUnit,
    reads: &mut Vec<Read>,
) -> Result<(), NoMemory>
    ensures { OnOk result (AddsProducts reads.old.items reads.new.items (products_by by_row (placed_register circuit.now unit.now) unit.now)) }
{
    match unit_register(circuit, unit.unit) {
        Some(_) => push_registered(by_row, &unit.enable, unit.terms.items(), reads),
        None => push_combinational(&unit.enable, unit.terms.items(), reads),
    }
}

/// Adds those of units.
fn push_units(
    circuit: &Circuit,
    by_row: bool,
    units: &[PlacedUnit],
    reads: &mut Vec<Read>,
) -> Result<(), NoMemory>
    ensures { OnOk result (AddsProducts reads.old.items reads.new.items (flat_map (λ x. products_by by_row (placed_register circuit.now x) x) units.now)) }
{
    for unit in units {
        push_unit(circuit, by_row, unit, reads)?;
    }
    Ok(())
}

/// Adds those of the reset and preset of a unit, if there is one.
fn push_controls(unit: Option<&PlacedUnit>, reads: &mut Vec<Read>) -> Result<(), NoMemory>
    ensures { OnOk result (AddsProducts reads.old.items reads.new.items (controls_of (option_copied unit.entry))) }
{
    match unit {
        Some(unit) => {
            push_gate(&unit.reset, reads)?;
            push_gate(&unit.preset, reads)
        }
        None => Ok(()),
    }
}

/// The variables that stand in the rows of a new chip.
fn chip_reads(alloc: Global, circuit: &Circuit, chip: &PlannedChip) -> Result<Vec<Read>, NoMemory>
    ensures { IfOk result (λ reads. AddsProducts [] reads.items (chip_products circuit.now chip.now)) }
{
    let mut reads = Vec::new(alloc);
    let by_row = is_22(chip.kind);
    push_units(circuit, by_row, chip.units.as_slice(), &mut reads)?;
    if by_row {
        push_controls(chip.first_registered(circuit), &mut reads)?;
    }
    Ok(reads)
}

/// Whether a variable is one of these.
fn is_among(reads: &[Read], variable: Read) -> bool
    ensures { result ≡ are_read reads.now variable }
{
    for read in reads {
        if same_read(*read, variable) {
            return true;
        }
    }
    false
}

/// The variables that stand in the rows of a new chip, in variable order. Fails for want of memory alone.
pub fn needed_variables(alloc: Global, old: &Old, chip: &PlannedChip) -> Result<Vec<Read>, NoMemory>
    ensures { IfOk result (λ needed. needed.items ≡ variables_needed old.now.circuit chip.now) }
{
    let reads = chip_reads(alloc, old.circuit, chip)?;
    let variables = among(alloc, old.variables.as_slice(), reads.as_slice())?;
    Ok(variables)
}

/// Those of these variables that are among others.
fn among(alloc: Global, variables: &[Read], reads: &[Read]) -> Result<Vec<Read>, NoMemory>
    ensures { IfOk result (λ kept. kept.items ≡ filter (are_read reads.now) variables.now) }
{
    let mut kept = Vec::new(alloc);
    for variable in variables {
        if is_among(reads, *variable) {
            kept.push(*variable)?;
        }
    }
    Ok(kept)
}
