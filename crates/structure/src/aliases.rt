ghost use Rattle.std.specs.Prelude.{◌≡◌, Some, IfOk};
ghost use Rattle.mig_base.specs.Bools.{same_bool as bool_same};
ghost use Rattle.mig_base.specs.Structure.{alias_unit as unit_alias, alias_wire as wire_alias, alias_of as net_alias, variable_literal as literal_over};
ghost use Rattle.structure.specs.Aliases.{AreAliases};

use mig_base::{Circuit, Driver, Gate, Gives, Items, Literal, NetKind, NoMemory, Read, Wire};
use std::alloc::Global;

/// Whether two signs are the same.
fn same_bool(a: bool, b: bool) -> bool
    ensures { result ≡ bool_same a b }
{
    a == b
}

/// The register whose visible Q a unit always drives, and whether its level is Q.
fn alias_unit(unit: &Driver) -> Option<(u32, bool)>
    ensures { result ≡ unit_alias (Some unit.now) }
{
    match (&unit.enable, &unit.gives) {
        (Gate::Product(lits), Gives::Visible(register)) => {
            if lits.items().is_empty() {
                Some((*register, !unit.low))
            } else {
                None
            }
        }
        _ => None,
    }
}

/// The register of a net, where it is an alias net, and whether the net's level is Q.
fn alias_wire(circuit: &Circuit, wire: &Wire) -> Option<(u32, bool)>
    ensures { result ≡ wire_alias circuit.now (Some wire.now) }
{
    if matches!(wire.kind, NetKind::Shared(_)) {
        return None;
    }
    match wire.drivers.items() {
        [unit] => alias_unit(circuit.units.items().get(*unit as usize)?),
        _ => None,
    }
}

/// The register of an alias net, and whether the net's level is Q: no Both port, and its only driver is a registered unit
/// that is always enabled.
pub fn alias_of(circuit: &Circuit, net: u32) -> Option<(u32, bool)>
    ensures { result ≡ net_alias circuit.now net }
{
    alias_wire(circuit, circuit.nets.items().get(net as usize)?)
}

/// The register of each net of a board that is an alias net, and whether the net's level is Q.
pub fn aliases_of(alloc: Global, circuit: &Circuit) -> Result<Items<Option<(u32, bool)>>, NoMemory>
    ensures { IfOk result (AreAliases circuit.now) }
{
    let mut aliases = Vec::with_capacity(alloc, circuit.nets.items().len())?;
    for wire in circuit.nets.items() {
        aliases.push(alias_wire(circuit, wire))?;
    }
    Ok(Items::new(aliases))
}

/// A literal over variables: one of an alias net is one of its register.
pub fn variable_literal(circuit: &Circuit, lit: Literal) -> Literal
    ensures { result ≡ literal_over circuit.now lit }
{
    match lit.source {
        Read::OfNet(net) => match alias_of(circuit, net) {
            Some((register, is_q)) => Literal {
                source: Read::OfRegister(register),
                high: same_bool(lit.high, is_q),
            },
            None => lit,
        },
        Read::OfRegister(_) => lit,
    }
}
