ghost use Rattle.std.specs.Prelude.{◌≡◌, ◌∷◌, [], IfOk, OnOk};
ghost use Rattle.std.specs.List.{flat_map};
ghost use Rattle.ranks.specs.Graphs.{IsGraph};
ghost use Rattle.ranks.specs.Neighbours.{neighbours_at};
ghost use Rattle.mig_base.specs.Reads.{IsNode};
ghost use Rattle.ranks.specs.Ways.{IsReached, IsWayHome};

use crate::graph::Graph;
use crate::marks::Marks;
use mig_base::{Circuit, NoMemory, Read};
use std::alloc::Global;

/// Numbers a node that has no number, and adds it to the next ones.
fn reach(node: Read, steps: u32, ways: &mut Marks, next: &mut Vec<Read>) -> Result<(), NoMemory>
    ensures { OnOk result (IsReached (node ∷ []) steps ways.old next.old.items ways.new next.new.items) }
{
    if ways.waits(node) {
        ways.set(node, steps);
        next.push(node)?;
    }
    Ok(())
}

/// Numbers all nodes without number among these, and adds them to the next ones.
fn reach_all(
    nodes: &[Read],
    steps: u32,
    ways: &mut Marks,
    next: &mut Vec<Read>,
) -> Result<(), NoMemory>
    ensures { OnOk result (IsReached nodes.now steps ways.old next.old.items ways.new next.new.items) }
{
    for node in nodes {
        reach(*node, steps, ways, next)?;
    }
    Ok(())
}

/// Numbers all nodes without number that read one of these, and gives them.
fn next_nodes(
    alloc: Global,
    graph: &Graph,
    nodes: &[Read],
    steps: u32,
    ways: &mut Marks,
) -> Result<Vec<Read>, NoMemory>
    ensures { IfOk result (λ next. IsReached (flat_map (neighbours_at graph.now.readers) nodes.now) steps ways.old [] ways.new next.items) }
{
    let mut next = Vec::new(alloc);
    for node in nodes {
        reach_all(graph.readers.of(*node), steps, ways, &mut next)?;
    }
    Ok(next)
}

/// For each node from which a walk leads to this one, the number of steps of a shortest one, less one.
pub(crate) fn ways_home(
    alloc: Global,
    circuit: &Circuit,
    graph: &Graph,
    home: Read,
) -> Result<Marks, NoMemory>
    requires graph { IsGraph circuit.now graph.now }
    requires home { IsNode circuit.now home }
    ensures { IfOk result (IsWayHome circuit.now home) }
{
    let mut ways = Marks::new(alloc, circuit)?;
    let mut nodes = Vec::new(alloc);
    nodes.push(home)?;
    for steps in 0..graph.nodes.items().len() as u32 {
        nodes = next_nodes(alloc, graph, nodes.as_slice(), steps, &mut ways)?;
        if nodes.is_empty() {
            return Ok(ways);
        }
    }
    Ok(ways)
}
