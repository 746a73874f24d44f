ghost use Rattle.std.specs.Prelude.{◌≡◌, ◌<◌, ◌^◌, length, map, slice_get, Some, None, IfOk, IfErr};
ghost use Rattle.std.specs.List.{position};
ghost use Rattle.mig_base.specs.Accepted.{is_fixed as fixed};
ghost use Rattle.mig_base.specs.declared.circuit.Read.TheVariants.{OfNet};
ghost use Rattle.mig_base.specs.declared.nets.PinName.{PinName as NameOfPin};
ghost use Rattle.ranks.specs.RankEquations.{IsRanks};
ghost use Rattle.mig_base.specs.declared.nets.BoardError.TheVariants.{InDriven, DerivedClock};
ghost use Rattle.board.specs.Built.{IsPassed};
ghost use Rattle.board.specs.NodeNames.{name_by};
ghost use Rattle.board.specs.Refusals.{Refuses, is_driven_input as driven_input, is_derived as derived, first_driven as the_first_driven, first_derived as the_first_derived};

use crate::tables::Tables;
use mig_base::{BoardError, Circuit, Items, NetKind, NoMemory, Node, Read, Register, Wire};
use ranks::{RankError, Ranks, ranks_of};
use std::alloc::Global;

/// Whether a net is an Input port or a constant.
fn is_fixed(kind: NetKind) -> bool
    ensures { result ≡ fixed kind }
{
    matches!(kind, NetKind::Ground | NetKind::Power | NetKind::Handed(_))
}

/// Whether a net is an Input port or a constant that has a driver.
fn is_driven_input(wire: &Wire) -> bool
    ensures { result ≡ driven_input wire.now }
{
    is_fixed(wire.kind) && !wire.drivers.items().is_empty()
}

/// The first Input port or constant that has a driver.
fn first_driven(nets: &[Wire]) -> Option<usize>
    ensures { result ≡ position driven_input nets.now }
{
    nets.iter().position(is_driven_input)
}

/// Whether the clock of a register is neither an Input port nor a constant.
fn is_derived(circuit: &Circuit, register: &Register) -> bool
    ensures { result ≡ derived circuit.now register.now }
{
    let nets = circuit.nets.items();
    let clock = register.clock as usize;
    clock >= nets.len() || !is_fixed(nets[clock].kind)
}

/// The first register with a derived clock.
fn first_derived(circuit: &Circuit) -> Option<usize>
    ensures { result ≡ the_first_derived circuit.now }
{
    circuit
        .registers
        .items()
        .iter()
        .position(|register| is_derived(circuit, register))
}

/// The refusal of a net with a driver.
fn in_driven(tables: &Tables, net: u32) -> BoardError
    ensures { result ≡ InDriven (name_by tables.now.net_names tables.now.register_pins (OfNet net)) }
{
    BoardError::InDriven {
        net: tables.name(Read::OfNet(net)),
    }
}

/// The refusal of the clock of a register.
fn derived_clock(tables: &Tables, register: usize) -> BoardError
    requires { register < length tables.now.register_pins }
    ensures { (pin : NameOfPin) × (slice_get tables.now.register_pins register ≡ Some pin) × (result ≡ DerivedClock pin.chip) }
{
    let pins = tables.register_pins.items();
    BoardError::DerivedClock {
        chip: pins[register].chip,
    }
}

/// The names of these nodes.
fn names_of(alloc: Global, tables: &Tables, nodes: &[Read]) -> Result<Items<Node>, NoMemory>
    ensures { IfOk result (λ names. names ≡ map (name_by tables.now.net_names tables.now.register_pins) nodes.now) }
{
    let mut names = Vec::with_capacity(alloc, nodes.len())?;
    for node in nodes {
        names.push(tables.name(*node))?;
    }
    Ok(Items::new(names))
}

/// The ranks of the nodes. Refuses a loop.
fn ranks_or_loop(alloc: Global, circuit: &Circuit, tables: &Tables) -> Result<Ranks, BoardError>
    requires driven { the_first_driven circuit.now ≡ None }
    requires derived { the_first_derived circuit.now ≡ None }
    ensures ranks { IfOk result (IsRanks circuit.now) }
    ensures refused { IfErr result (Refuses circuit.now tables.now.net_names tables.now.register_pins) }
{
    match ranks_of(alloc, circuit) {
        Ok(ranks) => Ok(ranks),
        Err(RankError::Memory) => Err(BoardError::Memory),
        Err(RankError::Loop { cycle }) => match names_of(alloc, tables, cycle.items()) {
            Ok(cycle) => Err(BoardError::Loop { cycle }),
            Err(_) => Err(BoardError::Memory),
        },
    }
}

/// The ranks of the nodes. Refuses an Input port or a constant with a driver, then a derived clock, then a loop.
pub(crate) fn check(alloc: Global, circuit: &Circuit, tables: &Tables) -> Result<Ranks, BoardError>
    requires nets { length circuit.now.nets < 2 ^ 32 }
    requires registers { length tables.now.register_pins ≡ length circuit.now.registers }
    ensures passed { IfOk result (IsPassed circuit.now) }
    ensures refused { IfErr result (Refuses circuit.now tables.now.net_names tables.now.register_pins) }
{
    if let Some(net) = first_driven(circuit.nets.items()) {
        return Err(in_driven(tables, net as u32));
    }
    if let Some(register) = first_derived(circuit) {
        return Err(derived_clock(tables, register));
    }
    ranks_or_loop(alloc, circuit, tables)
}
