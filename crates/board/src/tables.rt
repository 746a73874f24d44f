ghost use Rattle.std.specs.Prelude.{◌≡◌, ◌<◌, ◌^◌, length, slice_get, slice_index_or, IfOk};
ghost use Rattle.mig_base.specs.declared.nets.Node.TheVariants.{Gnd};
ghost use Rattle.board.specs.Built.{IsTables};
ghost use Rattle.board.specs.NodeNames.{name_by, register_node};
ghost use Rattle.board.specs.UnitLists.{units_on};

use crate::Unit;
use crate::names::net_names;
use crate::pin_nets::pin_nets;
use crate::unit_lists::{cell_places, named_units, register_pins, register_places, registered};
use equations::Parts;
use mig_base::{Items, NoMemory, Node, PinName, Read};
use std::alloc::Global;

/// What is looked up of a board by number: the net of each pin, 256 pins a chip; the names of the nets, and the pins of the registers by name;
/// the units, the numbers of those with a register, and how many of these stand before each unit.
#[derive(Drop)]
pub(crate) struct Tables {
    pub(crate) pins: Items<u32>,
    pub(crate) net_names: Items<Node>,
    pub(crate) register_pins: Items<PinName>,
    pub(crate) units: Items<Unit>,
    pub(crate) registers: Items<u32>,
    pub(crate) places: Items<u32>,
}

/// The name of this number, and GND's where there is none.
fn name_at(names: &[Node], number: u32) -> Node
    ensures { result ≡ slice_index_or names.now number Gnd }
{
    let number = number as usize;
    if number < names.len() {
        names[number]
    } else {
        Node::Gnd
    }
}

/// The name of the register of this number, and GND's where there is none.
fn register_at(pins: &[PinName], number: u32) -> Node
    ensures { result ≡ register_node (slice_get pins.now number) }
{
    let number = number as usize;
    if number < pins.len() {
        Node::Reg(pins[number])
    } else {
        Node::Gnd
    }
}

/// The units of a board, by name and number.
fn all_units(alloc: Global, parts: &Parts) -> Result<Vec<Unit>, NoMemory>
    ensures units { IfOk result (λ units. units.items ≡ units_on parts.now.net parts.now.chips) }
    ensures few { IfOk result (λ units. length units.items < 2 ^ 32) }
{
    let units = parts.units();
    let chips = parts.chips();
    let places = cell_places(alloc, chips)?;
    let named = named_units(
        alloc,
        parts.net(),
        parts.numbers(),
        units,
        places.as_slice(),
    )?;
    Ok(named)
}

impl Tables {
    /// The tables of a board of these parts.
    pub(crate) fn new(alloc: Global, parts: &Parts) -> Result<Tables, NoMemory>
        ensures { IfOk result (IsTables parts.now.net parts.now.chips) }
    {
        let numbers = parts.numbers();
        let chips = parts.chips();
        let units = all_units(alloc, parts)?;
        let pins = pin_nets(alloc, numbers, chips.len())?;
        let net_names = net_names(alloc, parts.net(), numbers)?;
        let register_pins = register_pins(alloc, units.as_slice())?;
        let registers = registered(alloc, units.as_slice())?;
        let places = register_places(alloc, units.as_slice())?;
        Ok(Tables {
            pins,
            net_names,
            register_pins,
            units: Items::new(units),
            registers,
            places,
        })
    }

    /// The name of a node.
    pub(crate) fn name(&self, node: Read) -> Node
        ensures { result ≡ name_by self.now.net_names self.now.register_pins node }
    {
        match node {
            Read::OfNet(net) => name_at(self.net_names.items(), net),
            Read::OfRegister(register) => register_at(self.register_pins.items(), register),
        }
    }
}
