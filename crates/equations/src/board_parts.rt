ghost use Rattle.std.specs.Prelude.{◌≡◌, ◌<◌, ◌≤◌, ◌^◌, length, IfOk};
ghost use Rattle.mig_base.specs.Boards.{units_from};

use crate::net_numbers::NetNumbers;
use crate::units::{BoardUnit, units_of};
use mig_base::{ChipCells, Net, NoMemory};
use std::alloc::Global;
use std::marker::Model;

/// A wiring and the cells of its chips, with the number of each pin's net and the units, which are made once.
#[derive(Drop)]
pub struct Parts<'a> {
    net: &'a Net,
    chips: &'a [ChipCells],
    numbers: NetNumbers<'a>,
    units: Vec<BoardUnit<'a>>,
}

impl<'a> Model for Parts<'a> {
    ghost use Rattle.std.specs.Prelude.{◌≡◌};
    ghost use Rattle.equations.specs.Parts.{HasUnits, Wired};

    ghost Value = { Wired };

    ghost view = { λ parts. record { net = parts.net.now; chips = parts.chips.now } };

    ghost invariant = { λ parts. (parts.numbers ≡ parts.net.now) × HasUnits parts.net.now parts.chips.now parts.units.items };
}

impl<'a> Parts<'a> {
    /// The parts of a board of this wiring and these chips, one for each chip line. Only want of memory refuses them.
    pub fn new(alloc: Global, net: &'a Net, chips: &'a [ChipCells]) -> Result<Parts<'a>, NoMemory>
        requires nets { length net.now.nets ≤ 1024 }
        requires chips { length net.now.chips ≤ 64 }
        requires cells { length chips.now ≡ length net.now.chips }
        ensures { IfOk result (λ parts. parts ≡ record { net = net.now; chips = chips.now }) }
    {
        let units = units_of(alloc, chips)?;
        if units.len() > u32::MAX as usize {
            return Err(NoMemory);
        }
        let numbers = NetNumbers::new(alloc, net)?;
        Ok(Parts {
            net,
            chips,
            numbers,
            units,
        })
    }

    /// The wiring.
    pub fn net(&self) -> &Net
        ensures { result.now ≡ self.now.net }
    {
        self.net
    }

    /// The cells of the chips.
    pub fn chips(&self) -> &[ChipCells]
        ensures chips { result.now ≡ self.now.chips }
        ensures lines { length result.now ≡ length self.now.net.chips }
        ensures few { length result.now ≤ 64 }
    {
        self.chips
    }

    /// The net numbers of the wiring.
    pub fn numbers(&self) -> &NetNumbers<'a>
        ensures numbers { result.now ≡ self.now.net }
        ensures few { length result.now.nets ≤ 1024 }
    {
        &self.numbers
    }

    /// The units, by chip and pin.
    pub fn units(&self) -> &[BoardUnit<'a>]
        ensures units { result.now ≡ units_from 0 self.now.chips }
        ensures few { length result.now < 2 ^ 32 }
    {
        self.units.as_slice()
    }
}
