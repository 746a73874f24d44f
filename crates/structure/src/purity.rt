ghost use Rattle.std.specs.Prelude.{◌≡◌, ◌<◌, true, false, Some, slice_get, IfOk};
ghost use Rattle.mig_base.specs.declared.circuit.Read.TheVariants.{OfNet, OfRegister};
ghost use Rattle.structure.specs.NodeSets.{contains};
ghost use Rattle.mig_base.specs.WrittenBoard.{is_pulled as pulls};
ghost use Rattle.structure.specs.Pure.{is_always as always, always_enabled as enabled_always, pure_driven, pure_wire, IsPurity};
ghost use Rattle.structure.specs.Sweeps.{IsAbove, IsKept, size, KeepsNets, KeepsRegisters, KeepsRule};

use crate::reading::{has_driver, has_register};
use crate::sets::{NodeSet, flag_at};
use mig_base::{Circuit, Gate, NetKind, NoMemory, Pull, Register, Wire};
use std::alloc::Global;

/// Whether a resistor pulls a net.
fn is_pulled(pull: Pull) -> bool
    ensures { result ≡ pulls pull }
{
    pull != Pull::Free
}

/// Whether a row has no literal, so that it is always 1.
pub(crate) fn is_always(row: &Gate) -> bool
    ensures { result ≡ always row.now }
{
    match row {
        Gate::Never => false,
        Gate::Product(literals) => literals.items().is_empty(),
    }
}

/// Whether a unit is always enabled.
fn always_enabled(circuit: &Circuit, unit: u32) -> bool
    ensures { result ≡ enabled_always (slice_get circuit.now.units unit) }
{
    match circuit.units.items().get(unit as usize) {
        None => false,
        Some(driver) => is_always(&driver.enable),
    }
}

/// Whether a net that is no port to be handed a level, and no constant, keeps the rule of pure nets.
fn is_pure_driven(circuit: &Circuit, set: &NodeSet, wire: &Wire) -> bool
    ensures { result ≡ pure_driven circuit.now (contains set.now) wire.now wire.now.drivers }
{
    match wire.drivers.items() {
        [] => is_pulled(wire.pull),
        [unit] => {
            (always_enabled(circuit, *unit) || is_pulled(wire.pull))
                && has_driver(circuit, set, *unit)
        }
        _ => false,
    }
}

/// Whether a net keeps the rule of pure nets, where the pure nodes are those of a set.
fn is_pure_net(circuit: &Circuit, set: &NodeSet, wire: &Wire) -> bool
    ensures { result ≡ pure_wire circuit.now (contains set.now) wire.now }
{
    match wire.kind {
        NetKind::Ground | NetKind::Power | NetKind::Handed(_) => true,
        NetKind::Shared(_) => false,
        NetKind::Inner => is_pure_driven(circuit, set, wire),
    }
}

/// Takes a net out of a set that has all pure nodes, where it doesn't keep the rule. Answers whether it did.
fn drop_net(circuit: &Circuit, set: &mut NodeSet, net: usize, wire: &Wire) -> bool
    requires wire { slice_get circuit.now.nets net ≡ Some wire.now }
    requires above { IsAbove circuit.now set.old }
    ensures above { IsAbove circuit.now set.new }
    ensures moved { result ≡ true → size set.new < size set.old }
    ensures stays { result ≡ false → (set.new ≡ set.old) × IsKept circuit.now set.old (OfNet net) }
{
    if !flag_at(set.nets.items(), net) || is_pure_net(circuit, set, wire) {
        return false;
    }
    set.nets.set(net, false);
    true
}

/// Takes a register out, likewise.
fn drop_register(circuit: &Circuit, set: &mut NodeSet, place: usize, register: &Register) -> bool
    requires register { slice_get circuit.now.registers place ≡ Some register.now }
    requires above { IsAbove circuit.now set.old }
    ensures above { IsAbove circuit.now set.new }
    ensures moved { result ≡ true → size set.new < size set.old }
    ensures stays { result ≡ false → (set.new ≡ set.old) × IsKept circuit.now set.old (OfRegister place) }
{
    if !flag_at(set.registers.items(), place) || has_register(set, register) {
        return false;
    }
    set.registers.set(place, false);
    true
}

/// Takes out nets that don't keep the rule, in one pass over all. Answers whether it took any.
fn drop_nets(circuit: &Circuit, set: &mut NodeSet) -> bool
    requires above { IsAbove circuit.now set.old }
    ensures above { IsAbove circuit.now set.new }
    ensures moved { result ≡ true → size set.new < size set.old }
    ensures stays { result ≡ false → (set.new ≡ set.old) × KeepsNets circuit.now set.old }
{
    let mut moved = false;
    for (net, wire) in circuit.nets.items().iter().enumerate() {
        if drop_net(circuit, set, net, wire) {
            moved = true;
        }
    }
    moved
}

/// Takes out registers, likewise.
fn drop_registers(circuit: &Circuit, set: &mut NodeSet) -> bool
    requires above { IsAbove circuit.now set.old }
    ensures above { IsAbove circuit.now set.new }
    ensures moved { result ≡ true → size set.new < size set.old }
    ensures stays { result ≡ false → (set.new ≡ set.old) × KeepsRegisters circuit.now set.old }
{
    let mut moved = false;
    for (place, register) in circuit.registers.items().iter().enumerate() {
        if drop_register(circuit, set, place, register) {
            moved = true;
        }
    }
    moved
}

/// Takes out nodes that don't keep the rule, in one pass over all. Answers whether it took any.
fn sweep(circuit: &Circuit, set: &mut NodeSet) -> bool
    requires above { IsAbove circuit.now set.old }
    ensures above { IsAbove circuit.now set.new }
    ensures moved { result ≡ true → size set.new < size set.old }
    ensures stays { result ≡ false → KeepsRule circuit.now set.new }
{
    if drop_nets(circuit, set) {
        return true;
    }
    drop_registers(circuit, set)
}

/// The pure nodes of a board: Input ports, constants, pulled nets without driver, nets whose only driver always drives them by
/// pure nodes alone or that are pulled, and registers with pure sources in their terms, preset and reset.
pub fn purity_of(alloc: Global, circuit: &Circuit) -> Result<NodeSet, NoMemory>
    ensures { IfOk result (IsPurity circuit.now) }
{
    let mut set = NodeSet::filled(alloc, circuit, true)?;
    while sweep(circuit, &mut set) {}
    Ok(set)
}
