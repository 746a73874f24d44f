ghost use Rattle.std.specs.Prelude.{◌≡◌, ◌<◌, ◌^◌, length, IfOk, OnOk};
ghost use Rattle.mig_base.specs.declared.circuit.Read.TheVariants.{OfNet, OfRegister};
ghost use Rattle.ranks.specs.Order.{IsOrder};
ghost use Rattle.reader_lists.specs.Tables.{AddsNode, AddsNodes, AddsUnits, AreReaders};

use crate::lists::Reader;
use crate::readers::Readers;
use crate::reading::{add_driver, add_drivers, add_row};
use mig_base::{Circuit, NoMemory, Read};
use std::alloc::Global;

/// Adds a net as a reader of what it reads.
fn add_net(readers: &mut Readers, circuit: &Circuit, net: u32) -> Result<(), NoMemory>
    ensures { OnOk result (AddsNode circuit.now readers.old (OfNet net) readers.new) }
{
    let nets = circuit.nets.items();
    let place = net as usize;
    if place >= nets.len() {
        return Ok(());
    }
    add_drivers(
        readers,
        circuit,
        Reader::ByNet(net),
        nets[place].drivers.items(),
    )
}

/// Adds a register as a reader of what its reset reads.
fn add_register(readers: &mut Readers, circuit: &Circuit, register: u32) -> Result<(), NoMemory>
    ensures { OnOk result (AddsNode circuit.now readers.old (OfRegister register) readers.new) }
{
    let registers = circuit.registers.items();
    let place = register as usize;
    if place >= registers.len() {
        return Ok(());
    }
    add_row(
        readers,
        Reader::ByRegister(register),
        &registers[place].reset,
    )
}

/// Adds a node as a reader of all that it reads.
fn add_node(readers: &mut Readers, circuit: &Circuit, node: Read) -> Result<(), NoMemory>
    ensures { OnOk result (AddsNode circuit.now readers.old node readers.new) }
{
    match node {
        Read::OfNet(net) => add_net(readers, circuit, net),
        Read::OfRegister(register) => add_register(readers, circuit, register),
    }
}

/// Adds these nodes as readers.
fn add_nodes(readers: &mut Readers, circuit: &Circuit, nodes: &[Read]) -> Result<(), NoMemory>
    ensures { OnOk result (AddsNodes circuit.now readers.old nodes.now readers.new) }
{
    for node in nodes {
        add_node(readers, circuit, *node)?;
    }
    Ok(())
}

/// Adds the first units as readers.
fn add_units(readers: &mut Readers, circuit: &Circuit, count: usize) -> Result<(), NoMemory>
    requires { count < 2 ^ 32 }
    ensures { OnOk result (AddsUnits circuit.now readers.old count readers.new) }
{
    for unit in 0..count {
        let unit = unit as u32;
        add_driver(readers, circuit, Reader::ByUnit(unit), unit)?;
    }
    Ok(())
}

/// For each node of a board what reads it, where this is an order of all nodes. Only want of memory refuses it.
pub fn readers_of(alloc: Global, circuit: &Circuit, order: &[Read]) -> Result<Readers, NoMemory>
    requires order { IsOrder circuit.now order.now }
    ensures all { IfOk result (AreReaders circuit.now) }
{
    let units = circuit.units.items().len();
    if units > u32::MAX as usize {
        return Err(NoMemory);
    }
    let mut readers = Readers::empty(alloc, circuit)?;
    add_nodes(&mut readers, circuit, order)?;
    add_units(&mut readers, circuit, units)?;
    Ok(readers)
}
