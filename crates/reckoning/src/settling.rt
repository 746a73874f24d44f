//! All nodes of a board, along an order of evaluation.
ghost use Rattle.std.specs.Prelude.{◌≡◌, ◌<◌, false, IfOk, OnOk, length};
ghost use Rattle.bdd.specs.Diagram.{IsCanonical, IsConstant, Keeps};
ghost use Rattle.ranks.specs.Order.{IsOrder};
ghost use Rattle.mig_base.specs.Reads.{IsNode};
ghost use Rattle.reckoning.specs.Triples.{IsTriple, AreTriples, NeverFloat};
ghost use Rattle.reckoning.specs.Tables.{IsTable};
ghost use Rattle.reckoning.specs.Reached.{IsVisibleOf, IsRenewed, HasPlaces, IsReckoned};

use crate::logic::{both, row, three_at};
use crate::nets::net;
use crate::triples::{Table, Three, Value};
use bdd::{Graph, NoNode};
use mig_base::{Circuit, Read, Register};

/// The triple of a visible Q.
fn visible(
    graph: &mut Graph,
    table: &Table,
    register: &Register,
    stored: Three,
) -> Result<Three, NoNode>
    requires table { IsTable graph.old table.now }
    requires stored { IsTriple graph.old stored }
    ensures keeps { Keeps graph.old graph.new }
    ensures canonical { IsCanonical graph.new }
    ensures known { IfOk result (λ three. IsConstant graph.new false three.float) }
    ensures visible { IfOk result (IsVisibleOf graph.old graph.new table.now register.now stored) }
{
    let reset = row(graph, table, &register.reset)?;
    let level = Value {
        one: stored.one,
        zero: stored.zero,
    };
    let kept = Value {
        one: reset.zero,
        zero: reset.one,
    };
    let seen = both(graph, level, kept)?;
    let float = graph.constant(false);
    Ok(Three {
        one: seen.one,
        zero: seen.zero,
        float,
    })
}

/// Makes the triple of a node anew.
fn renew(
    graph: &mut Graph,
    circuit: &Circuit,
    stored: &[Three],
    handed: &[Three],
    node: Read,
    table: &mut Table,
) -> Result<(), NoNode>
    requires node { IsNode circuit.now node }
    requires stored { AreTriples graph.old stored.now }
    requires handed { AreTriples graph.old handed.now }
    requires table { IsTable graph.old table.old }
    requires places { HasPlaces circuit.now table.old }
    ensures keeps { Keeps graph.old graph.new }
    ensures canonical { IsCanonical graph.new }
    ensures known { NeverFloat graph.old table.old.visible → OnOk result (NeverFloat graph.new table.new.visible) }
    ensures renewed { OnOk result (IsRenewed graph.old graph.new circuit.now stored.now handed.now node table.old table.new) }
{
    match node {
        Read::OfNet(place) => {
            let place = place as usize;
            let three = net(graph, circuit, handed, table, &circuit.nets.items()[place])?;
            table.nets.set(place, three);
        }
        Read::OfRegister(place) => {
            let given = three_at(graph, stored, place);
            let place = place as usize;
            let three = visible(graph, table, &circuit.registers.items()[place], given)?;
            table.visible.set(place, three);
        }
    }
    Ok(())
}

/// The triples of all nodes, from those of the stored and handed levels. The table has any triples, one for each node.
pub fn settle_nodes(
    graph: &mut Graph,
    circuit: &Circuit,
    order: &[Read],
    stored: &[Three],
    handed: &[Three],
    table: &mut Table,
) -> Result<(), NoNode>
    requires order { IsOrder circuit.now order.now }
    requires stored { AreTriples graph.old stored.now }
    requires handed { AreTriples graph.old handed.now }
    requires table { IsTable graph.old table.old }
    requires places { HasPlaces circuit.now table.old }
    ensures keeps { Keeps graph.old graph.new }
    ensures canonical { IsCanonical graph.new }
    ensures known { NeverFloat graph.old table.old.visible → OnOk result (NeverFloat graph.new table.new.visible) }
    ensures reckoned { OnOk result (IsReckoned graph.old graph.new circuit.now stored.now handed.now table.new) }
{
    let _count = graph.vars();
    for node in order {
        renew(graph, circuit, stored, handed, *node, table)?;
    }
    Ok(())
}
