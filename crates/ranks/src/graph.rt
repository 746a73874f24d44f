ghost use Rattle.std.specs.Prelude.{◌≡◌, ◌<◌, ◌≤◌, ◌+◌, ◌++◌, ◌^◌, [], length, map, IfOk, OnOk};
ghost use Rattle.mig_base.specs.declared.circuit.Read.TheVariants.{OfNet, OfRegister};
ghost use Rattle.mig_base.specs.First.{made_from};
ghost use Rattle.mig_base.specs.Reads.{wire_reads as reads_of_wire};
ghost use Rattle.mig_base.specs.Structure.{all_variables};
ghost use Rattle.mig_base.specs.Values.{row_reads};
ghost use Rattle.ranks.specs.Graphs.{IsGraph, AllRead, ReadBy, AddsReader};

use crate::lists::Lists;
use crate::neighbours::Neighbours;
use crate::reading::{reset_reads, wire_reads};
use mig_base::{Circuit, Items, NoMemory, Read};
use std::alloc::Global;

/// The nodes of a board in node order, what each of them reads, and by which nodes each is read.
#[derive(Drop)]
pub(crate) struct Graph {
    pub(crate) nodes: Items<Read>,
    pub(crate) reads: Neighbours,
    pub(crate) readers: Neighbours,
}

/// Adds so many nets.
fn add_nets(nodes: &mut Vec<Read>, count: usize) -> Result<(), NoMemory>
    requires { count < 2 ^ 32 }
    ensures { OnOk result (nodes.new.items ≡ nodes.old.items ++ made_from OfNet 0 count) }
{
    for net in 0..count {
        nodes.push(Read::OfNet(net as u32))?;
    }
    Ok(())
}

/// Adds so many registers.
fn add_registers(nodes: &mut Vec<Read>, count: usize) -> Result<(), NoMemory>
    requires { count < 2 ^ 32 }
    ensures { OnOk result (nodes.new.items ≡ nodes.old.items ++ made_from OfRegister 0 count) }
{
    for register in 0..count {
        nodes.push(Read::OfRegister(register as u32))?;
    }
    Ok(())
}

/// The nodes of a board in node order.
fn all_nodes(alloc: Global, circuit: &Circuit) -> Result<Items<Read>, NoMemory>
    requires { length circuit.now.nets + length circuit.now.registers + 1 < 2 ^ 32 }
    ensures { IfOk result (λ nodes. nodes ≡ all_variables circuit.now) }
{
    let mut nodes = Vec::new(alloc);
    add_nets(&mut nodes, circuit.nets.items().len())?;
    add_registers(&mut nodes, circuit.registers.items().len())?;
    Ok(Items::new(nodes))
}

/// What each net reads.
fn net_reads(alloc: Global, circuit: &Circuit) -> Result<Lists, NoMemory>
    ensures { IfOk result (λ lists. lists ≡ map (reads_of_wire circuit.now) circuit.now.nets) }
{
    let mut lists = Lists::empty(alloc, 0)?;
    for wire in circuit.nets.items() {
        lists.push(wire_reads(alloc, circuit, wire)?)?;
    }
    Ok(lists)
}

/// What each register reads.
fn register_reads(alloc: Global, circuit: &Circuit) -> Result<Lists, NoMemory>
    ensures { IfOk result (λ lists. lists ≡ map (λ register. row_reads register.reset) circuit.now.registers) }
{
    let mut lists = Lists::empty(alloc, 0)?;
    for register in circuit.registers.items() {
        lists.push(reset_reads(alloc, register)?)?;
    }
    Ok(lists)
}

/// What each node reads.
fn all_reads(alloc: Global, circuit: &Circuit) -> Result<Neighbours, NoMemory>
    ensures { IfOk result (AllRead circuit.now) }
{
    let nets = net_reads(alloc, circuit)?;
    let registers = register_reads(alloc, circuit)?;
    Ok(Neighbours { nets, registers })
}

/// An empty list for each node.
fn no_readers(alloc: Global, circuit: &Circuit) -> Result<Neighbours, NoMemory>
    ensures { IfOk result (ReadBy circuit.now []) }
{
    let nets = Lists::empty(alloc, circuit.nets.items().len())?;
    let registers = Lists::empty(alloc, circuit.registers.items().len())?;
    Ok(Neighbours { nets, registers })
}

/// Adds a node to the lists of all that it reads.
fn add_reader(readers: &mut Neighbours, node: Read, reads: &[Read]) -> Result<(), NoMemory>
    ensures { OnOk result (AddsReader readers.old node reads.now readers.new) }
{
    for read in reads {
        readers.add(*read, node)?;
    }
    Ok(())
}

/// By which nodes each node is read.
fn all_readers(
    alloc: Global,
    circuit: &Circuit,
    nodes: &[Read],
    reads: &Neighbours,
) -> Result<Neighbours, NoMemory>
    requires { AllRead circuit.now reads.now }
    ensures { IfOk result (ReadBy circuit.now nodes.now) }
{
    let mut readers = no_readers(alloc, circuit)?;
    for node in nodes {
        add_reader(&mut readers, *node, reads.of(*node))?;
    }
    Ok(readers)
}

/// The nodes of a board and their reads.
pub(crate) fn graph_of(alloc: Global, circuit: &Circuit) -> Result<Graph, NoMemory>
    requires { length circuit.now.nets + length circuit.now.registers + 1 < 2 ^ 32 }
    ensures { IfOk result (IsGraph circuit.now) }
{
    let nodes = all_nodes(alloc, circuit)?;
    let reads = all_reads(alloc, circuit)?;
    let readers = all_readers(alloc, circuit, nodes.items(), &reads)?;
    Ok(Graph {
        nodes,
        reads,
        readers,
    })
}
