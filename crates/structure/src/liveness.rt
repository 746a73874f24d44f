ghost use Rattle.std.specs.Prelude.{ℕ, ◌≡◌, ◌<◌, true, false, Some, slice_get, IfOk};
ghost use Rattle.mig_base.specs.Among.{Among};
ghost use Rattle.mig_base.specs.declared.circuit.Read.TheVariants.{OfNet};
ghost use Rattle.structure.specs.Live.{IsLive, IsLiveness, WireNotHanded};
ghost use Rattle.structure.specs.Waking.{AreNeeded, IsWaking, falses, is_awake, AreAwake, NodeAwake, NetsAwake, QAwake, QsAwake, AllAwake};

use crate::sets::{NodeSet, flag_at, flags};
use crate::unit_reads::add_unit;
use mig_base::{Circuit, Driver, Gives, Items, NetKind, NoMemory, Read, Wire};
use std::alloc::Global;

/// The units that are known to be live so far, and the nodes that the ports and these units need.
#[derive(Drop)]
struct Waking {
    live: Items<bool>,
    needed: NodeSet,
}

/// Marks a live unit as live, and what it reads as needed. Answers whether that is new.
fn wake(circuit: &Circuit, waking: &mut Waking, unit: usize) -> bool
    requires live { IsLive circuit.now unit }
    requires waking { IsWaking circuit.now waking.old }
    ensures waking { IsWaking circuit.now waking.new }
    ensures moved { result ≡ true → falses waking.new.live < falses waking.old.live }
    ensures stays { result ≡ false → (waking.new ≡ waking.old) × (is_awake waking.old unit ≡ true) }
{
    let units = circuit.units.items();
    if unit >= units.len() || flag_at(waking.live.items(), unit) {
        return false;
    }
    waking.live.set(unit, true);
    add_unit(&mut waking.needed, circuit, &units[unit]);
    true
}

/// Wakes live units. Answers whether any of them is new.
fn wake_all(circuit: &Circuit, waking: &mut Waking, units: &[u32]) -> bool
    requires live { (u : ℕ) → Among u units.now → IsLive circuit.now u }
    requires waking { IsWaking circuit.now waking.old }
    ensures waking { IsWaking circuit.now waking.new }
    ensures moved { result ≡ true → falses waking.new.live < falses waking.old.live }
    ensures stays { result ≡ false → (waking.new ≡ waking.old) × AreAwake waking.old units.now }
{
    let mut moved = false;
    for unit in units {
        if wake(circuit, waking, *unit as usize) {
            moved = true;
        }
    }
    moved
}

/// Wakes the drivers of a net, where the net is needed.
fn wake_net(circuit: &Circuit, waking: &mut Waking, net: usize, wire: &Wire) -> bool
    requires wire { slice_get circuit.now.nets net ≡ Some wire.now }
    requires waking { IsWaking circuit.now waking.old }
    ensures waking { IsWaking circuit.now waking.new }
    ensures moved { result ≡ true → falses waking.new.live < falses waking.old.live }
    ensures stays { result ≡ false → (waking.new ≡ waking.old) × NodeAwake circuit.now waking.old (OfNet net) }
{
    flag_at(waking.needed.nets.items(), net) && wake_all(circuit, waking, wire.drivers.items())
}

/// Wakes the drivers of needed nets, in one pass over all. Answers whether any of them is new.
fn wake_nets(circuit: &Circuit, waking: &mut Waking) -> bool
    requires waking { IsWaking circuit.now waking.old }
    ensures waking { IsWaking circuit.now waking.new }
    ensures moved { result ≡ true → falses waking.new.live < falses waking.old.live }
    ensures stays { result ≡ false → (waking.new ≡ waking.old) × NetsAwake circuit.now waking.old }
{
    let mut moved = false;
    for (net, wire) in circuit.nets.items().iter().enumerate() {
        if wake_net(circuit, waking, net, wire) {
            moved = true;
        }
    }
    moved
}

/// Wakes a registered unit, where its register is needed.
fn wake_by_register(circuit: &Circuit, waking: &mut Waking, unit: usize, driver: &Driver) -> bool
    requires unit { slice_get circuit.now.units unit ≡ Some driver.now }
    requires waking { IsWaking circuit.now waking.old }
    ensures waking { IsWaking circuit.now waking.new }
    ensures moved { result ≡ true → falses waking.new.live < falses waking.old.live }
    ensures stays { result ≡ false → (waking.new ≡ waking.old) × QAwake circuit.now waking.old unit }
{
    match driver.gives {
        Gives::Sum(_) => false,
        Gives::Visible(register) => {
            waking.needed.has(Read::OfRegister(register)) && wake(circuit, waking, unit)
        }
    }
}

/// Wakes the units of needed registers, in one pass over all. Answers whether any of them is new.
fn wake_registered(circuit: &Circuit, waking: &mut Waking) -> bool
    requires waking { IsWaking circuit.now waking.old }
    ensures waking { IsWaking circuit.now waking.new }
    ensures moved { result ≡ true → falses waking.new.live < falses waking.old.live }
    ensures stays { result ≡ false → (waking.new ≡ waking.old) × QsAwake circuit.now waking.old }
{
    let mut moved = false;
    for (unit, driver) in circuit.units.items().iter().enumerate() {
        if wake_by_register(circuit, waking, unit, driver) {
            moved = true;
        }
    }
    moved
}

/// Wakes units behind needed nodes, in one pass over all. Answers whether any of them is new.
fn wake_pass(circuit: &Circuit, waking: &mut Waking) -> bool
    requires waking { IsWaking circuit.now waking.old }
    ensures waking { IsWaking circuit.now waking.new }
    ensures moved { result ≡ true → falses waking.new.live < falses waking.old.live }
    ensures stays { result ≡ false → AllAwake circuit.now waking.new }
{
    if wake_nets(circuit, waking) {
        return true;
    }
    wake_registered(circuit, waking)
}

/// Whether a net is an Output or Both port, where it is a port.
fn is_shown(circuit: &Circuit, net: u32) -> bool
    ensures yes { result ≡ true → WireNotHanded (slice_get circuit.now.nets net) }
    ensures no { result ≡ false → WireNotHanded (slice_get circuit.now.nets net) → ⊥ }
{
    match circuit.nets.items().get(net as usize) {
        None => false,
        Some(wire) => !matches!(wire.kind, NetKind::Handed(_)),
    }
}

/// The Output and Both ports of a board.
fn shown_ports(alloc: Global, circuit: &Circuit) -> Result<NodeSet, NoMemory>
    ensures { IfOk result (AreNeeded circuit.now) }
{
    let mut needed = NodeSet::filled(alloc, circuit, false)?;
    for port in circuit.ports.items() {
        if is_shown(circuit, *port) {
            needed.add(Read::OfNet(*port));
        }
    }
    Ok(needed)
}

/// Whether each unit of a board is live: those that drive an Output or Both port, and those that drive a net or have a
/// register that a live unit reads.
pub fn live_of(alloc: Global, circuit: &Circuit) -> Result<Items<bool>, NoMemory>
    ensures { IfOk result (IsLiveness circuit.now) }
{
    let live = flags(alloc, circuit.units.items().len(), false)?;
    let needed = shown_ports(alloc, circuit)?;
    let mut waking = Waking { live, needed };
    while wake_pass(circuit, &mut waking) {}
    Ok(waking.live)
}
