ghost use Rattle.std.specs.Prelude.{◌≡◌, ◌<◌, length, slice_get};
ghost use Rattle.mig_base.specs.Accepted.{IsAccepted};
ghost use Rattle.mig_base.specs.Boards.{net_of, units_from};
ghost use Rattle.mig_base.specs.Given.{IsGiven};
ghost use Rattle.ranks.specs.Order.{IsOrder};
ghost use Rattle.mig_base.specs.Reads.{IsNode};
ghost use Rattle.board.specs.Enables.{effective_of, drivers_of};
ghost use Rattle.board.specs.Joined.{equations_of, HasRank};
ghost use Rattle.board.specs.NodeNames.{node_name};
ghost use Rattle.board.specs.UnitLists.{units_on, register_units};
ghost use Rattle.board.specs.Variables.{IsVariable, IsRankOf, AreByRank, read_of, var_of};

use crate::by_rank::variable;
use crate::pin_nets::net_at;
use crate::{Board, Unit};
use mig_base::{ChipCells, Circuit, Enable, Net, Node, Read, Var};

impl Board {
    /// The wiring.
    pub fn net(&self) -> &Net
        ensures net { result.now ≡ self.now.net }
        ensures given { IsGiven self.now.net self.now.chips }
    {
        &self.net
    }

    /// The cells of the chips, one entry for each chip line.
    pub fn chips(&self) -> &[ChipCells]
        ensures { result.now ≡ self.now.chips }
    {
        self.chips.items()
    }

    /// The board as equations.
    pub fn circuit(&self) -> &Circuit
        ensures circuit { result.now ≡ equations_of self.now }
        ensures accepted { IsAccepted (equations_of self.now) }
    {
        &self.circuit
    }

    /// All nodes, each behind all that it reads: by rank, and then in node order.
    pub fn order(&self) -> &[Read]
        ensures { IsOrder (equations_of self.now) result.now }
    {
        self.ranks.order.items()
    }

    /// The greatest rank of a node.
    pub fn rank(&self) -> u32
        ensures { HasRank (equations_of self.now) result }
    {
        self.ranks.top
    }

    /// How many nets there are: GND, VCC, the named and the private ones.
    pub fn nets(&self) -> u32
        ensures { result ≡ length (equations_of self.now).nets }
    {
        self.circuit.nets.items().len() as u32
    }

    /// The units, by chip and pin.
    pub fn units(&self) -> &[Unit]
        ensures units { result.now ≡ units_on self.now.net self.now.chips }
        ensures all { length result.now ≡ length (equations_of self.now).units }
    {
        self.tables.units.items()
    }

    /// The numbers of the units that have a register, rising.
    pub fn registers(&self) -> &[u32]
        ensures units { result.now ≡ register_units self.now.chips }
        ensures all { length result.now ≡ length (equations_of self.now).registers }
    {
        self.tables.registers.items()
    }

    /// The net of a pin.
    pub fn net_of(&self, chip: u32, pin: u8) -> u32
        requires { chip < length self.now.net.chips }
        ensures { result ≡ net_of self.now.net (chip, pin) }
    {
        net_at(self.tables.pins.items(), chip, pin)
    }

    /// The units that drive a net, by number and rising.
    pub fn drivers(&self, net: u32) -> &[u32]
        requires { net < length (equations_of self.now).nets }
        ensures { result.now ≡ drivers_of (slice_get (equations_of self.now).nets net) }
    {
        let nets = self.circuit.nets.items();
        nets[net as usize].drivers.items()
    }

    /// The enable of a unit on its board: `LowPin` stands there only for a pin on another net than GND and VCC.
    pub fn effective(&self, unit: u32) -> &Enable
        requires { unit < length (equations_of self.now).units }
        ensures { result.now ≡ effective_of self.now.net (slice_get (units_from 0 self.now.chips) unit) }
    {
        let units = self.tables.units.items();
        let unit = units[unit as usize];
        let chips = self.chips.items();
        let cells = chips[unit.chip as usize].cells.items();
        let enable = &cells[unit.cell as usize].enable;
        let Enable::LowPin(pin) = enable else {
            return enable;
        };
        let net = self.net_of(unit.chip, *pin);
        if net == 0 {
            return &self.always;
        }
        if net == 1 {
            return &self.never;
        }
        enable
    }

    /// The name of a variable's node.
    pub fn node(&self, variable: Var) -> Node
        requires { IsVariable self.now variable }
        ensures { result ≡ node_name self.now.net self.now.chips (read_of self.now.chips variable) }
    {
        self.tables.name(self.read(variable))
    }

    /// The rank of a variable's node.
    pub fn rank_of(&self, variable: Var) -> u32
        requires { IsVariable self.now variable }
        ensures { IsRankOf (equations_of self.now) (read_of self.now.chips variable) result }
    {
        match self.read(variable) {
            Read::OfNet(net) => self.ranks.nets.items()[net as usize],
            Read::OfRegister(register) => self.ranks.registers.items()[register as usize],
        }
    }

    /// All variables by rank, and then in node order.
    pub fn by_rank(&self) -> &[Var]
        ensures { AreByRank self.now result.now }
    {
        self.by_rank.items()
    }

    /// The node of a variable.
    pub fn read(&self, variable: Var) -> Read
        requires { IsVariable self.now variable }
        ensures read { result ≡ read_of self.now.chips variable }
        ensures node { IsNode (equations_of self.now) result }
        ensures back { var_of self.now.chips result ≡ variable }
    {
        match variable {
            Var::Net(net) => Read::OfNet(net),
            Var::Reg(unit) => Read::OfRegister(self.tables.places.items()[unit as usize]),
        }
    }

    /// The variable of a node.
    pub fn var(&self, node: Read) -> Var
        requires { IsNode (equations_of self.now) node }
        ensures var { result ≡ var_of self.now.chips node }
        ensures variable { IsVariable self.now result }
        ensures back { read_of self.now.chips result ≡ node }
    {
        variable(node, self.tables.registers.items())
    }
}
