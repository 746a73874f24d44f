//! The settled levels of two boards as functions over the leaves of a matching.
ghost use Rattle.std.specs.Prelude.{◌≡◌, length, IfOk};
ghost use Rattle.bdd.specs.Diagram.{IsCanonical, Keeps};
ghost use Rattle.level_laws.specs.SameBehaviour.{SamePorts};
ghost use Rattle.signs.specs.Both.{AreBothTriples, AreGivenTriples, IsRoomy};

use crate::named::{handed_names, named_triples};
use bdd::{Graph, NoNode};
use board::Board;
use class_leaves::{Leaves, leaf_triples};
use mig_base::Items;
use reckoning::{Three, Triples, settled_triples};
use std::alloc::Global;

/// The triples of the registers of two boards, and of the handed levels of the first and of the second one.
#[derive(Drop)]
struct GivenTriples {
    pub stored: Items<Three>,
    pub ports: Items<Three>,
    pub others: Items<Three>,
}

/// The triples of two boards, and of the handed levels of the first one.
#[derive(Drop)]
pub struct BothTriples {
    pub ports: Items<Three>,
    pub left: Triples,
    pub right: Triples,
}

/// The triples of the leaves, those of the ports for each board.
fn given_triples(
    alloc: Global,
    graph: &mut Graph,
    a: &Board,
    b: &Board,
    leaves: &Leaves,
) -> Result<GivenTriples, NoNode>
    requires same { SamePorts a.now.net b.now.net }
    requires room { IsRoomy a.now b.now graph.old.vars leaves.now }
    ensures keeps { Keeps graph.old graph.new }
    ensures canonical { IsCanonical graph.new }
    ensures given { IfOk result (AreGivenTriples a.now b.now leaves.now graph.new) }
{
    // a graph's number of variables is a `u32`, which bounds those of the leaves
    let _count = graph.vars();
    let names = handed_names(alloc, a.net())?;
    let others = handed_names(alloc, b.net())?;
    let stored = leaf_triples(alloc, graph, leaves.registers.items())?;
    let ports = leaf_triples(alloc, graph, leaves.ports.items())?;
    let handed = named_triples(
        alloc,
        graph,
        names.as_slice(),
        ports.as_slice(),
        others.as_slice(),
    )?;
    Ok(GivenTriples {
        stored: Items::new(stored),
        ports: Items::new(ports),
        others: Items::new(handed),
    })
}

/// The triples of all settled levels of two boards with the same ports, over the leaves of a matching. Only want of memory
/// refuses them.
pub fn both_triples(
    alloc: Global,
    graph: &mut Graph,
    a: &Board,
    b: &Board,
    leaves: &Leaves,
) -> Result<BothTriples, NoNode>
    requires same { SamePorts a.now.net b.now.net }
    requires room { IsRoomy a.now b.now graph.old.vars leaves.now }
    ensures keeps { Keeps graph.old graph.new }
    ensures canonical { IsCanonical graph.new }
    ensures settled { IfOk result (AreBothTriples a.now b.now leaves.now graph.new) }
{
    let given = given_triples(alloc, graph, a, b, leaves)?;
    let (front, back) = given.stored.items().split_at(a.registers().len());
    let handed = given.ports.items();
    let left = settled_triples(alloc, graph, a.circuit(), a.order(), front, handed)?;
    let handed = given.others.items();
    let right = settled_triples(alloc, graph, b.circuit(), b.order(), back, handed)?;
    Ok(BothTriples {
        ports: given.ports,
        left,
        right,
    })
}
