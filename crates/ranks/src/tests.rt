//! Loops of nets and registers, ways to them, and ranks of a small board.

use crate::{RankError, Ranks, ranks_of};
use mig_base::{
    Circuit, Driver, Gate, Gives, Items, Literal, NetKind, NoMemory, Pull, Read, Register, Wire,
};
use std::alloc::Global;
use std::test::Fail;

/// The product of the true literals of these nodes.
fn product(alloc: Global, reads: &[Read]) -> Result<Items<Literal>, NoMemory> {
    let mut literals = Vec::new(alloc);
    for read in reads {
        literals.push(Literal {
            source: *read,
            high: true,
        })?;
    }
    Ok(Items::new(literals))
}

/// A driver that is always enabled.
fn driver(alloc: Global, gives: Gives) -> Driver {
    Driver {
        enable: Gate::Product(Items::new(Vec::new(alloc))),
        gives,
        low: false,
    }
}

/// A net with these drivers.
fn wire(alloc: Global, drivers: &[u32]) -> Result<Wire, NoMemory> {
    let mut units = Vec::new(alloc);
    for unit in drivers {
        units.push(*unit)?;
    }
    Ok(Wire {
        kind: NetKind::Inner,
        pull: Pull::Free,
        drivers: Items::new(units),
    })
}

/// A register with this reset.
fn register(alloc: Global, reset: Gate) -> Register {
    Register {
        clock: 0,
        terms: Items::new(Vec::new(alloc)),
        low: false,
        reset,
        preset: Gate::Never,
    }
}

/// A board whose nets have a driver of one product each, of these nodes, and whose registers have these resets.
fn board(alloc: Global, nets: &[&[Read]], resets: &[&[Read]]) -> Result<Circuit, NoMemory> {
    let mut wires = Vec::new(alloc);
    let mut units = Vec::new(alloc);
    for (net, reads) in nets.iter().enumerate() {
        let mut terms = Vec::new(alloc);
        terms.push(product(alloc, reads)?)?;
        units.push(driver(alloc, Gives::Sum(Items::new(terms))))?;
        let Ok(unit) = u32::try_from(net) else {
            return Err(NoMemory);
        };
        wires.push(wire(alloc, &[unit])?)?;
    }
    let mut registers = Vec::new(alloc);
    for reads in resets {
        registers.push(register(alloc, Gate::Product(product(alloc, reads)?)))?;
    }
    Ok(Circuit {
        nets: Items::new(wires),
        units: Items::new(units),
        registers: Items::new(registers),
        ports: Items::new(Vec::new(alloc)),
    })
}

/// Whether the reported loop of a board is this one.
fn reports(alloc: Global, circuit: &Circuit, want: &[Read]) -> Result<bool, NoMemory> {
    match ranks_of(alloc, circuit) {
        Ok(_) => Ok(false),
        Err(RankError::Memory) => Err(NoMemory),
        Err(RankError::Loop { cycle }) => Ok(same(cycle.items(), want)),
    }
}

/// Whether these are the same nodes.
fn same(nodes: &[Read], want: &[Read]) -> bool {
    if nodes.len() != want.len() {
        return false;
    }
    for place in 0..nodes.len() {
        if nodes[place] != want[place] {
            return false;
        }
    }
    true
}

const A: Read = Read::OfNet(0);

const B: Read = Read::OfNet(1);

const C: Read = Read::OfNet(2);

const D: Read = Read::OfNet(3);

const E: Read = Read::OfNet(4);

const P: Read = Read::OfRegister(0);

const Q: Read = Read::OfRegister(1);

/// Two nets that read one another, a net that reads itself, and a register that its own Q resets.
#[test]
fn finds_small_loops(rt: HostRuntime) -> Result<(), Fail> {
    let alloc = rt.alloc();
    let pair = board(alloc, &[&[], &[], &[D], &[C]], &[])?;
    assert!(rt; reports(alloc, &pair, &[C, D])?);
    let own = board(alloc, &[&[], &[B], &[A]], &[])?;
    assert!(rt; reports(alloc, &own, &[B])?);
    let reset = board(alloc, &[&[P]], &[&[P]])?;
    assert!(rt; reports(alloc, &reset, &[P])?);
    let crossed = board(alloc, &[&[P]], &[&[Q], &[P]])?;
    assert!(rt; reports(alloc, &crossed, &[P, Q])?);
    let over_a_net = board(alloc, &[&[P]], &[&[A]])?;
    assert!(rt; reports(alloc, &over_a_net, &[A, P])?);
    Ok(())
}

/// The loop of the first node that lies on one, though another loop is shorter, or nodes before it lead to it.
#[test]
fn begins_with_the_first_node_on_a_loop(rt: HostRuntime) -> Result<(), Fail> {
    let alloc = rt.alloc();
    let longer = board(alloc, &[&[B], &[C], &[A], &[E], &[D]], &[])?;
    assert!(rt; reports(alloc, &longer, &[A, B, C])?);
    let behind = board(alloc, &[&[B], &[C], &[D], &[E], &[D]], &[])?;
    assert!(rt; reports(alloc, &behind, &[D, E])?);
    let between = board(alloc, &[&[B], &[D], &[A, C], &[D], &[C]], &[])?;
    assert!(rt; reports(alloc, &between, &[C])?);
    Ok(())
}

/// A shortest way back, and of two the one by the first node.
#[test]
fn takes_the_first_shortest_way(rt: HostRuntime) -> Result<(), Fail> {
    let alloc = rt.alloc();
    let shorter = board(alloc, &[&[B, D], &[C], &[A], &[E, C], &[A]], &[])?;
    assert!(rt; reports(alloc, &shorter, &[A, B, C])?);
    let first = board(alloc, &[&[E, D], &[], &[], &[A], &[A]], &[])?;
    assert!(rt; reports(alloc, &first, &[A, D])?);
    let nets_first = board(alloc, &[&[P, B], &[A]], &[&[A]])?;
    assert!(rt; reports(alloc, &nets_first, &[A, B])?);
    Ok(())
}

/// A counter of two bits whose pins feed two gates, and an undriven net that two drivers on one net read.
fn counter(alloc: Global) -> Result<Circuit, NoMemory> {
    let mut units = Vec::new(alloc);
    units.push(driver(alloc, Gives::Visible(0)))?;
    units.push(driver(alloc, Gives::Visible(1)))?;
    for _ in 0..2 {
        let mut terms = Vec::new(alloc);
        terms.push(product(alloc, &[C, D])?)?;
        units.push(driver(alloc, Gives::Sum(Items::new(terms))))?;
    }
    units.push(driver(alloc, Gives::Sum(Items::new(Vec::new(alloc)))))?;
    let mut wires = Vec::new(alloc);
    wires.push(wire(alloc, &[])?)?;
    wires.push(wire(alloc, &[4])?)?;
    wires.push(wire(alloc, &[1])?)?;
    wires.push(wire(alloc, &[0])?)?;
    wires.push(wire(alloc, &[2, 3])?)?;
    let mut registers = Vec::new(alloc);
    registers.push(register(alloc, Gate::Never))?;
    registers.push(register(alloc, Gate::Product(product(alloc, &[A])?)))?;
    Ok(Circuit {
        nets: Items::new(wires),
        units: Items::new(units),
        registers: Items::new(registers),
        ports: Items::new(Vec::new(alloc)),
    })
}

/// The ranks of a board that has no loop.
fn ranked(alloc: Global, circuit: &Circuit) -> Result<Ranks, NoMemory> {
    match ranks_of(alloc, circuit) {
        Ok(ranks) => Ok(ranks),
        Err(_) => Err(NoMemory),
    }
}

/// A net without driver has rank 0, one with a driver that reads nothing 1, a register 1, its pin 2, a gate behind it 3.
#[test]
fn ranks_a_counter(rt: HostRuntime) -> Result<(), Fail> {
    let ranks = ranked(rt.alloc(), &counter(rt.alloc())?)?;
    assert_eq!(rt; ranks.nets.items(), [0, 1, 2, 2, 3].as_slice());
    assert_eq!(rt; ranks.registers.items(), [1, 1].as_slice());
    assert_eq!(rt; ranks.top, 3);
    assert!(rt; same(ranks.order.items(), &[A, B, P, Q, C, D, E]));
    Ok(())
}

/// A board without nodes has no ranks, and a read of a node that is not there counts as one of rank 0.
#[test]
fn ranks_odd_boards(rt: HostRuntime) -> Result<(), Fail> {
    let nothing = ranked(rt.alloc(), &board(rt.alloc(), &[], &[])?)?;
    assert_eq!(rt; nothing.top, 0);
    assert!(rt; nothing.order.items().is_empty());
    let outside = ranked(rt.alloc(), &board(rt.alloc(), &[&[E, Q], &[A]], &[])?)?;
    assert_eq!(rt; outside.nets.items(), [1, 2].as_slice());
    Ok(())
}
