ghost use Rattle.std.specs.Prelude.{◌≡◌, Option, is_none, IfOk};
ghost use Rattle.std.specs.List.{list_any, filter_map};
ghost use Rattle.mig_base.specs.BoardText.{is_both as is_both_port};
ghost use Rattle.sim_run.specs.ScriptText as spec;
ghost use Rattle.sim_run.specs.Statements.{slot_level};

use crate::keeping::keep;
use crate::naming::Slot;
use mig_base::{Inputs, Items, Level, Port};
use std::alloc::{AllocError, Global};

/// Whether a port has no level on a `step` line of these characters.
pub(crate) fn any_bad(slots: &[Slot], levels: &[u8]) -> bool
    ensures { result ≡ list_any (λ s. is_none (slot_level levels.now s)) slots.now }
{
    slots.iter().any(|slot| level(levels, slot).is_none())
}

/// The levels of the ports on a `step` line of these characters.
pub(crate) fn inputs(alloc: Global, slots: &[Slot], levels: &[u8]) -> Result<Inputs, AllocError>
    ensures { IfOk result (λ inputs. inputs.levels ≡ filter_map (slot_level levels.now) slots.now) }
{
    let mut given = Vec::with_capacity(alloc, slots.len())?;
    for slot in slots {
        keep(&mut given, level(levels, slot))?;
    }
    Ok(Inputs {
        levels: Items::new(given),
    })
}

/// The level of a port.
fn level(levels: &[u8], slot: &Slot) -> Option<Level>
    ensures { result ≡ slot_level levels.now slot.now }
{
    match levels.get(slot.place) {
        Some(byte) => level_of(slot.port, *byte),
        None => None,
    }
}

/// The level of a character, for a port of this direction.
fn level_of(port: Port, byte: u8) -> Option<Level>
    ensures { result ≡ spec.level_of port byte }
{
    match byte {
        b'0' => Some(Level::Zero),
        b'1' => Some(Level::One),
        b'Z' | b'z' => is_both(port).then_some(Level::Z),
        _ => None,
    }
}

fn is_both(port: Port) -> bool
    ensures { result ≡ is_both_port port }
{
    match port {
        Port::Both => true,
        _ => false,
    }
}
