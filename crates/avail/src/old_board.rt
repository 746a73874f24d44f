ghost use Rattle.std.specs.Prelude.{◌≡◌, ◌<◌, ◌≤◌, ◌^◌, nat_lt, slice_get, length, IfOk, IfSome};
ghost use Rattle.mig_base.specs.Boards.{circuit as circuit_of};
ghost use Rattle.mig_base.specs.Structure.{alias_of as net_alias, has_no_driver};
ghost use Rattle.new_board.specs.NewChip.{unit_net, alias_net, is_register_of, net_literal, net_of_complement, is_complement_of, private_from, can_stand};
ghost use Rattle.new_board.specs.InputPins.{wire_for, chip_from, stood_on};
ghost use Rattle.new_board.specs.NewFiles.{wire_at as wire_on};
ghost use Rattle.new_board.specs.OneForOne.{old_board};

use crate::variables::{same_bool, same_read, variable_of};
use board::Board;
use equations::{BoardUnit, NetNumbers, units_of};
use mig_base::{ChipCells, Circuit, Kind, Literal, Name, Net, NoMemory, Read, pins};
use new_board::PinNet;
use std::alloc::Global;
use std::marker::Model;
use structure::{alias_of, all_variables, variable_literal};

/// The board that is rebuilt: its wiring with the numbers of its nets, its units, its circuit, and its variables in order.
#[derive(Drop)]
pub struct Old<'a> {
    numbers: NetNumbers<'a>,
    pub net: &'a Net,
    pub units: Vec<BoardUnit<'a>>,
    pub circuit: &'a Circuit,
    pub variables: Vec<Read>,
}

impl<'a> Model for Old<'a> {
    ghost use Rattle.new_board.specs.NewChip.{OldBoard};
    ghost use Rattle.avail.specs.KeptBoard.{IsOld};

    ghost Value = { OldBoard };

    ghost view = { λ b. record { net = b.net.now; units = b.units.items; circuit = b.circuit.now } };

    ghost invariant = { λ b. IsOld b.numbers b.variables.items (record { net = b.net.now; units = b.units.items; circuit = b.circuit.now }) };
}

impl<'a> Old<'a> {
    /// The board of this wiring and these chips, whose equations are handed in. Fails for want of memory alone.
    pub fn new(
        alloc: Global,
        net: &'a Net,
        chips: &'a [ChipCells],
        circuit: &'a Circuit,
    ) -> Result<Old<'a>, NoMemory>
        requires nets { length net.now.nets ≤ 1024 }
        requires lines { length net.now.chips ≤ 64 }
        requires chips { length chips.now ≡ length net.now.chips }
        requires circuit { circuit.now ≡ circuit_of net.now chips.now }
        ensures old { IfOk result (λ old. old ≡ old_board net.now chips.now) }
        ensures few { IfOk result (λ old. length old.units < 2 ^ 32) }
    {
        let units = units_of(alloc, chips)?;
        if units.len() > u32::MAX as usize {
            return Err(NoMemory);
        }
        let variables = all_variables(alloc, circuit)?;
        let numbers = NetNumbers::new(alloc, net)?;
        Ok(Old {
            numbers,
            net,
            units,
            circuit,
            variables,
        })
    }

    /// A joined board. Fails for want of memory alone.
    pub fn of_board(alloc: Global, board: &'a Board) -> Result<Old<'a>, NoMemory>
        ensures { IfOk result (λ old. old ≡ old_board board.now.net board.now.chips) }
    {
        Old::new(alloc, board.net(), board.chips(), board.circuit())
    }

    /// The net of a unit.
    pub(crate) fn unit_net(&self, unit: u32) -> Option<u32>
        ensures { result ≡ unit_net self.now unit }
    {
        let unit = self.units.as_slice().get(unit as usize)?;
        Some(self.numbers.net_of(unit.chip, unit.cell.pin))
    }

    /// The alias net of a register, if it is named.
    pub(crate) fn alias_net(&self, register: u32) -> Option<u32>
        ensures { result ≡ alias_net self.now register }
    {
        for net in 2..2 + self.net.nets.items().len() as u32 {
            if is_alias_of(self.circuit, net, register) {
                return Some(net);
            }
        }
        None
    }

    /// The literal of a net's level.
    pub(crate) fn net_literal(&self, net: u32) -> Literal
        ensures { result ≡ net_literal self.now.circuit net }
    {
        net_level(self.circuit, net)
    }

    /// The net of whose level a literal is the complement.
    pub(crate) fn net_of_complement(&self, lit: Literal) -> Option<u32>
        ensures { result ≡ net_of_complement self.now lit.source lit }
    {
        match lit.source {
            Read::OfNet(net) => {
                if !lit.high && self.can_stand(net) {
                    Some(net)
                } else {
                    None
                }
            }
            Read::OfRegister(register) => {
                let net = self.alias_net(register)?;
                if is_complement(lit, self.net_literal(net)) {
                    Some(net)
                } else {
                    None
                }
            }
        }
    }

    /// Whether a net is GND, VCC or a named one.
    fn is_public(&self, net: u32) -> bool
        ensures { result ≡ nat_lt net (private_from self.now.net) }
    {
        (net as usize) < 2 + self.net.nets.items().len()
    }

    /// Whether the board has this net, and it has no driver.
    fn has_no_driver(&self, net: u32) -> bool
        ensures { result ≡ has_no_driver (slice_get self.now.circuit.nets net) }
    {
        match self.circuit.nets.items().get(net as usize) {
            Some(wire) => wire.drivers.items().is_empty(),
            None => false,
        }
    }

    /// Whether an input pin or an enable pin can stand on a net: a constant, a named net, a private net without driver.
    fn can_stand(&self, net: u32) -> bool
        ensures { result ≡ can_stand self.now net }
    {
        self.is_public(net) || self.has_no_driver(net)
    }

    /// The net by which a variable can be wired to an input pin: one that a pin can stand on, of a register its named
    /// alias net.
    pub fn wire_for(&self, variable: Read) -> Option<u32>
        ensures { result ≡ wire_for self.now variable }
    {
        match variable {
            Read::OfNet(net) => { if self.can_stand(net) { Some(net) } else { None } }
            Read::OfRegister(register) => self.alias_net(register),
        }
    }

    /// The line of a pin that stands on this net, if it has one: its net is a constant or a named one.
    pub fn wire_at(&self, pin: u8, net: Option<u32>) -> Option<PinNet>
        ensures { result ≡ wire_on self.now pin net }
    {
        let net = net?;
        if self.is_public(net) {
            Some(PinNet { pin, net })
        } else {
            None
        }
    }

    /// The old chip of a name, by its number and its kind.
    pub(crate) fn chip_named(&self, name: &Name) -> Option<(u32, Kind)>
        ensures { result ≡ chip_from 0 self.now.net.chips name.now }
    {
        for (number, line) in self.net.chips.items().iter().enumerate() {
            if name.bytes() == line.name.bytes() {
                return Some((number as u32, line.kind));
            }
        }
        None
    }

    /// Whether the pin of this number of an old chip is no ground or power pin, and stands on a net of a variable.
    pub(crate) fn stood_on(&self, variable: Read, pin: u8, chip: Option<(u32, Kind)>) -> bool
        requires { IfSome chip (λ old. old.0 < length self.now.net.chips) }
        ensures { result ≡ stood_on self.now variable pin chip }
    {
        match chip {
            Some((chip, kind)) => {
                pin != pins(kind) / 2
                    && pin != pins(kind)
                    && same_read(
                        variable_of(self.circuit, self.numbers.net_of(chip, pin)),
                        variable,
                    )
            }
            None => false,
        }
    }
}

/// Whether a net is an alias net of a register.
fn is_alias_of(circuit: &Circuit, net: u32, register: u32) -> bool
    ensures { result ≡ is_register_of register (net_alias circuit.now net) }
{
    match alias_of(circuit, net) {
        Some((aliased, _)) => aliased == register,
        None => false,
    }
}

/// The literal of a net's level.
pub(crate) fn net_level(circuit: &Circuit, net: u32) -> Literal
    ensures { result ≡ net_literal circuit.now net }
{
    let level = Literal {
        source: Read::OfNet(net),
        high: true,
    };
    variable_literal(circuit, level)
}

/// Whether a literal is the complement of another.
fn is_complement(a: Literal, b: Literal) -> bool
    ensures { result ≡ is_complement_of a b }
{
    same_read(a.source, b.source) && same_bool(a.high, !b.high)
}
