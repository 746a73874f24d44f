ghost use Rattle.std.specs.Prelude.{◌≡◌, IfOk};
ghost use Rattle.avail.specs.Needs.{need_chip};

use crate::planned::{PlannedChip, no_rows};
use mig_base::{Items, Kind, Mode, Name, NoMemory, Var};
use new_board::PinNet;
use std::alloc::Global;

/// A unit on a pin of a new chip.
#[derive(Clone, Copy)]
pub struct PinUnit {
    pub pin: u8,
    pub unit: u32,
}

/// What a new chip asks of its pins: its name, kind and mode, the clock net of its registered units if it has any, its
/// units with their pins, in unit order, and the variables that its rows read, rising.
#[derive(Drop)]
pub struct ChipNeed {
    pub name: Name,
    pub kind: Kind,
    pub mode: Mode,
    pub clock: Option<u32>,
    pub units: Items<PinUnit>,
    pub vars: Items<Var>,
}

/// A variable and the pin whose columns read it.
#[derive(Clone, Copy)]
pub struct VarPin {
    pub var: Var,
    pub pin: u8,
}

/// What the pins of a new chip read: the input pins that have a line with their nets, rising, and each needed variable
/// with the pin whose columns read it.
#[derive(Drop)]
pub struct PinReads {
    pub wires: Items<PinNet>,
    pub columns: Items<VarPin>,
}

/// Why a new chip gets no input pins: a needed variable has no pin, or can't be wired; or want of memory.
#[derive(Clone, Copy)]
pub enum AvailError {
    NoInput { var: Var },
    Memory,
}

/// The chip of a need, its units without rows.
pub(crate) fn bare_chip(alloc: Global, need: &ChipNeed) -> Result<PlannedChip, NoMemory>
    ensures { IfOk result (λ chip. chip ≡ need_chip need.now) }
{
    let mut units = Vec::new(alloc);
    for unit in need.units.items() {
        units.push(no_rows(alloc, unit.pin, unit.unit))?;
    }
    Ok(PlannedChip {
        name: need.name,
        kind: need.kind,
        mode: need.mode,
        units,
    })
}
