ghost use Rattle.std.specs.Prelude.{◌≡◌, ◌&&◌, ◌==◌, not, slice_get};
ghost use Rattle.std.specs.List.{list_all, list_any};
ghost use Rattle.mig_base.specs.Accepted.{is_fixed as fixed};
ghost use Rattle.mig_base.specs.Values.{row_reads};
ghost use Rattle.taken_boards.specs.TakenBoards.{are_taken_ports as taken_ports, is_taken_circuit as taken_circuit, has_few_drivers as few_drivers, is_undriven as undriven, is_input_wire, have_one_clock as one_clock, enable_undriven as undriven_enable, is_combinational as combinational, is_combinational_net as combinational_net, terms_registered as registered_terms};

use crate::wiring::are_taken_ports;
use mig_base::{Circuit, Driver, Gate, Gives, Items, Literal, Net, NetKind, Read, Register, Wire};

/// Whether a board has no port both ways, no driver on an Input port or a constant net, and no two on one net; whether all its
/// registers have one Input port as clock net; whether no enable reads a net that has a driver, and no combinational unit
/// one that has a combinational driver. The circuit is that of the board.
pub fn is_taken_form(net: &Net, circuit: &Circuit) -> bool
    ensures { result ≡ (taken_ports net.now && taken_circuit circuit.now) }
{
    are_taken_ports(net) && is_taken_circuit(circuit)
}

fn is_taken_circuit(circuit: &Circuit) -> bool
    ensures { result ≡ taken_circuit circuit.now }
{
    let units = circuit.units.items();
    have_few_drivers(circuit.nets.items())
        && have_one_clock(circuit, circuit.registers.items())
        && are_enables_undriven(circuit, units)
        && are_terms_registered(circuit, units)
}

/// Whether a net is an Input port or a constant.
fn is_fixed(kind: NetKind) -> bool
    ensures { result ≡ fixed kind }
{
    matches!(kind, NetKind::Ground | NetKind::Power | NetKind::Handed(_))
}

/// Whether a net has no more drivers than one, or none where it is an Input port or a constant.
fn has_few_drivers(wire: &Wire) -> bool
    ensures { result ≡ few_drivers wire.now }
{
    let most = if is_fixed(wire.kind) { 0 } else { 1 };
    wire.drivers.items().len() <= most
}

fn have_few_drivers(wires: &[Wire]) -> bool
    ensures { result ≡ list_all few_drivers wires.now }
{
    wires.iter().all(has_few_drivers)
}

/// Whether a net is an Input port.
fn is_input(circuit: &Circuit, net: u32) -> bool
    ensures { result ≡ is_input_wire (slice_get circuit.now.nets net) }
{
    match circuit.nets.items().get(net as usize) {
        Some(wire) => matches!(wire.kind, NetKind::Handed(_)),
        None => false,
    }
}

/// Whether all registers have this clock net.
fn are_clocked_by(net: u32, registers: &[Register]) -> bool
    ensures { result ≡ list_all (λ r. r.clock == net) registers.now }
{
    registers.iter().all(|register| register.clock == net)
}

/// Whether all registers have one Input port as clock net.
fn have_one_clock(circuit: &Circuit, registers: &[Register]) -> bool
    ensures { result ≡ one_clock circuit.now registers.now }
{
    match registers {
        [] => true,
        [first, rest @ ..] => is_input(circuit, first.clock) && are_clocked_by(first.clock, rest),
    }
}

/// Whether a source is no net that has a driver: a net without one, or a register.
fn is_undriven(circuit: &Circuit, read: Read) -> bool
    ensures { result ≡ undriven circuit.now read }
{
    match read {
        Read::OfNet(net) => match circuit.nets.items().get(net as usize) {
            Some(wire) => wire.drivers.items().is_empty(),
            None => false,
        },
        Read::OfRegister(_) => true,
    }
}

/// Whether a product reads no net that has a driver.
fn is_product_undriven(circuit: &Circuit, lits: &[Literal]) -> bool
    ensures { result ≡ list_all (λ x. undriven circuit.now x.source) lits.now }
{
    lits.iter().all(|lit| is_undriven(circuit, lit.source))
}

/// Whether an enable reads no net that has a driver.
fn is_enable_undriven(circuit: &Circuit, enable: &Gate) -> bool
    ensures { result ≡ list_all (undriven circuit.now) (row_reads enable.now) }
{
    match enable {
        Gate::Never => true,
        Gate::Product(lits) => is_product_undriven(circuit, lits.items()),
    }
}

fn are_enables_undriven(circuit: &Circuit, units: &[Driver]) -> bool
    ensures { result ≡ list_all (undriven_enable circuit.now) units.now }
{
    units
        .iter()
        .all(|unit| is_enable_undriven(circuit, &unit.enable))
}

/// Whether a unit of this number is combinational.
fn is_combinational(circuit: &Circuit, unit: u32) -> bool
    ensures { result ≡ combinational (slice_get circuit.now.units unit) }
{
    match circuit.units.items().get(unit as usize) {
        Some(unit) => matches!(unit.gives, Gives::Sum(_)),
        None => false,
    }
}

fn is_any_combinational(circuit: &Circuit, units: &[u32]) -> bool
    ensures { result ≡ list_any (λ u. combinational (slice_get circuit.now.units u)) units.now }
{
    units.iter().any(|unit| is_combinational(circuit, *unit))
}

/// Whether a source is a net that has a combinational driver.
fn is_combinational_net(circuit: &Circuit, read: Read) -> bool
    ensures { result ≡ combinational_net circuit.now read }
{
    match read {
        Read::OfNet(net) => match circuit.nets.items().get(net as usize) {
            Some(wire) => is_any_combinational(circuit, wire.drivers.items()),
            None => false,
        },
        Read::OfRegister(_) => false,
    }
}

/// Whether a product reads no net that has a combinational driver.
fn is_product_registered(circuit: &Circuit, lits: &[Literal]) -> bool
    ensures { result ≡ list_all (λ x. not (combinational_net circuit.now x.source)) lits.now }
{
    lits.iter()
        .all(|lit| !is_combinational_net(circuit, lit.source))
}

fn are_products_registered(circuit: &Circuit, terms: &[Items<Literal>]) -> bool
    ensures { result ≡ list_all (λ lits. list_all (λ x. not (combinational_net circuit.now x.source)) lits) terms.now }
{
    terms
        .iter()
        .all(|term| is_product_registered(circuit, term.items()))
}

/// Whether a combinational unit reads no net that has a combinational driver.
fn is_level_registered(circuit: &Circuit, gives: &Gives) -> bool
    ensures { result ≡ registered_terms circuit.now gives.now }
{
    match gives {
        Gives::Sum(terms) => are_products_registered(circuit, terms.items()),
        Gives::Visible(_) => true,
    }
}

fn are_terms_registered(circuit: &Circuit, units: &[Driver]) -> bool
    ensures { result ≡ list_all (λ d. registered_terms circuit.now d.gives) units.now }
{
    units
        .iter()
        .all(|unit| is_level_registered(circuit, &unit.gives))
}
