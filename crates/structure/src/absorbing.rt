ghost use Rattle.std.specs.Prelude.{ℕ, ◌≡◌, true, false, Some, slice_get, IfOk, IfSome, IfNone};
ghost use Rattle.mig_base.specs.Among.{Among};
ghost use Rattle.structure.specs.Absorbable.{is_plain as plain_unit, AbsorbsAt, AreAbsorbable};

use crate::purity::is_always;
use crate::sets::flags;
use mig_base::{Circuit, Gives, Items, NoMemory, Wire};
use std::alloc::Global;

/// Whether a unit is combinational and always enabled.
fn is_plain(circuit: &Circuit, unit: u32) -> bool
    ensures { result ≡ plain_unit (slice_get circuit.now.units unit) }
{
    match circuit.units.items().get(unit as usize) {
        None => false,
        Some(driver) => is_always(&driver.enable) && matches!(driver.gives, Gives::Sum(_)),
    }
}

/// Whether a net is a port.
fn is_port(circuit: &Circuit, net: usize) -> bool
    ensures yes { result ≡ true → Among net circuit.now.ports }
    ensures no { result ≡ false → Among net circuit.now.ports → ⊥ }
{
    for port in circuit.ports.items() {
        if *port as usize == net {
            return true;
        }
    }
    false
}

/// The unit that can be absorbed into what reads a net, if there is one: its only driver, where that is combinational and always
/// enabled, and the net is no port.
fn absorbed_at(circuit: &Circuit, net: usize, wire: &Wire) -> Option<u32>
    requires { slice_get circuit.now.nets net ≡ Some wire.now }
    ensures unit { IfSome result (λ unit. AbsorbsAt circuit.now net unit) }
    ensures none { IfNone result ((unit : ℕ) → AbsorbsAt circuit.now net unit → ⊥) }
{
    match wire.drivers.items() {
        [unit] => {
            if is_plain(circuit, *unit) && !is_port(circuit, net) {
                Some(*unit)
            } else {
                None
            }
        }
        _ => None,
    }
}

/// Whether each unit of a board is absorbable: combinational, always enabled, and the only driver of its net, which is no port.
pub fn absorbable_of(alloc: Global, circuit: &Circuit) -> Result<Items<bool>, NoMemory>
    ensures { IfOk result (AreAbsorbable circuit.now) }
{
    let mut absorbable = flags(alloc, circuit.units.items().len(), false)?;
    for (net, wire) in circuit.nets.items().iter().enumerate() {
        if let Some(unit) = absorbed_at(circuit, net, wire) {
            absorbable.set(unit as usize, true);
        }
    }
    Ok(absorbable)
}
