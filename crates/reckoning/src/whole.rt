//! All triples of a board at once.
ghost use Rattle.std.specs.Prelude.{◌≡◌, IfOk, length, replicate};
ghost use Rattle.bdd.specs.Diagram.{IsCanonical, Keeps};
ghost use Rattle.ranks.specs.Order.{IsOrder};
ghost use Rattle.reckoning.specs.Triples.{AreTriples, NeverFloat};
ghost use Rattle.reckoning.specs.Tables.{IsTable};
ghost use Rattle.reckoning.specs.Reached.{HasPlaces};
ghost use Rattle.reckoning.specs.Whole.{AreSettled};

use crate::lists::{drives, next};
use crate::logic::unknown;
use crate::settling::settle_nodes;
use crate::triples::{Table, Three, Triples};
use bdd::{Graph, NoNode};
use mig_base::{Circuit, Items, Read};
use std::alloc::Global;

/// A list of so many equal triples.
fn filled(alloc: Global, three: Three, count: usize) -> Result<Vec<Three>, NoNode>
    ensures { IfOk result (λ made. made.items ≡ replicate count three) }
{
    let mut made = Vec::with_capacity(alloc, count)?;
    for _ in 0..count {
        made.push(three)?;
    }
    Ok(made)
}

/// A triple for each node of a board, all X.
fn unknown_table(alloc: Global, graph: &Graph, circuit: &Circuit) -> Result<Table, NoNode>
    ensures table { IfOk result (IsTable graph.now) }
    ensures known { IfOk result (λ table. NeverFloat graph.now table.visible) }
    ensures places { IfOk result (HasPlaces circuit.now) }
    ensures canonical { IsCanonical graph.now }
{
    let never = unknown(graph);
    let nets = filled(alloc, never, circuit.nets.items().len())?;
    let visible = filled(alloc, never, circuit.registers.items().len())?;
    Ok(Table {
        nets: Items::new(nets),
        visible: Items::new(visible),
    })
}

/// The triples of all settled levels of a board, and of what its registers take where their clocks rise, from those of its
/// stored levels, by register, and of its handed levels, in board order.
pub fn settled_triples(
    alloc: Global,
    graph: &mut Graph,
    circuit: &Circuit,
    order: &[Read],
    stored: &[Three],
    handed: &[Three],
) -> Result<Triples, NoNode>
    requires order { IsOrder circuit.now order.now }
    requires stored { AreTriples graph.old stored.now }
    requires handed { AreTriples graph.old handed.now }
    ensures keeps { Keeps graph.old graph.new }
    ensures canonical { IsCanonical graph.new }
    ensures settled { IfOk result (AreSettled graph.old graph.new circuit.now stored.now handed.now) }
{
    let mut table = unknown_table(alloc, graph, circuit)?;
    settle_nodes(graph, circuit, order, stored, handed, &mut table)?;
    let drives = drives(alloc, graph, circuit, &table)?;
    let next = next(alloc, graph, circuit, &table)?;
    Ok(Triples {
        nets: table.nets,
        drives: Items::new(drives),
        visible: table.visible,
        next: Items::new(next),
    })
}
