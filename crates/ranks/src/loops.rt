ghost use Rattle.std.specs.Prelude.{◌≡◌, true, false, Some, IfOk, IfSome, IfNone};
ghost use Rattle.mig_base.specs.declared.circuit.Read.{Read as ReadOf};
ghost use Rattle.mig_base.specs.Among.{Among};
ghost use Rattle.ranks.specs.FirstLoop.{IsFirst, IsFirstLoop, IsOnLoop};
ghost use Rattle.ranks.specs.Graphs.{IsGraph};
ghost use Rattle.ranks.specs.Marked.{mark_in};
ghost use Rattle.mig_base.specs.Reads.{IsNode};
ghost use Rattle.ranks.specs.Ranking.{IsRanking};
ghost use Rattle.ranks.specs.Ways.{IsWayHome, IsStep, IsLoopBack};

use crate::distances::ways_home;
use crate::graph::Graph;
use crate::lists::same_node;
use crate::marks::Marks;
use mig_base::{Circuit, Items, NoMemory, Read};
use std::alloc::Global;

/// Whether these nodes have this one.
fn has_node(nodes: &[Read], node: Read) -> bool
    ensures yes { result ≡ true → Among node nodes.now }
    ensures no { result ≡ false → Among node nodes.now → ⊥ }
{
    for other in nodes {
        if same_node(node, *other) {
            return true;
        }
    }
    false
}

/// Whether a node is read and has this number.
fn is_step(node: Read, reads: &[Read], ways: &Marks, steps: u32) -> bool
    ensures yes { result ≡ true → IsStep reads.now ways.now steps node }
    ensures no { result ≡ false → IsStep reads.now ways.now steps node → ⊥ }
{
    match ways.mark(node) {
        Some(left) => left == steps && has_node(reads, node),
        None => false,
    }
}

/// The first of these nodes that is read and has this number.
fn first_step(nodes: &[Read], reads: &[Read], ways: &Marks, steps: u32) -> Read
    requires { (v : ReadOf) × Among v nodes.now × IsStep reads.now ways.now steps v }
    ensures { IsFirst (IsStep reads.now ways.now steps) nodes.now result }
{
    for node in nodes {
        if is_step(*node, reads, ways, steps) {
            return *node;
        }
    }
    unreachable!()
}

/// The nodes of a shortest way from a node back to it, the first in node order each time.
fn way_home(
    alloc: Global,
    circuit: &Circuit,
    graph: &Graph,
    ways: &Marks,
    home: Read,
    steps: u32,
) -> Result<Items<Read>, NoMemory>
    requires graph { IsGraph circuit.now graph.now }
    requires ways { IsWayHome circuit.now home ways.now }
    requires steps { mark_in ways.now home ≡ Some (Some steps) }
    ensures { IfOk result (IsLoopBack circuit.now home) }
{
    let mut cycle = Vec::new(alloc);
    cycle.push(home)?;
    let mut last = home;
    for left in (0..steps).rev() {
        last = first_step(graph.nodes.items(), graph.reads.of(last), ways, left);
        cycle.push(last)?;
    }
    Ok(Items::new(cycle))
}

/// The loop of a node that has no rank, where it lies on one.
fn loop_from(
    alloc: Global,
    circuit: &Circuit,
    graph: &Graph,
    ranks: &Marks,
    home: Read,
) -> Result<Option<Items<Read>>, NoMemory>
    requires graph { IsGraph circuit.now graph.now }
    requires ranking { IsRanking circuit.now ranks.now }
    requires home { IsNode circuit.now home }
    ensures loop_back { IfOk result (λ found. IfSome found (IsLoopBack circuit.now home)) }
    ensures no_loop { IfOk result (λ found. IfNone found (IsOnLoop circuit.now home → ⊥)) }
{
    if !ranks.waits(home) {
        return Ok(None);
    }
    let ways = ways_home(alloc, circuit, graph, home)?;
    let Some(steps) = ways.mark(home) else {
        return Ok(None);
    };
    let cycle = way_home(alloc, circuit, graph, &ways, home, steps)?;
    Ok(Some(cycle))
}

/// The reported loop, where a node lies on a loop.
pub(crate) fn first_loop(
    alloc: Global,
    circuit: &Circuit,
    graph: &Graph,
    ranks: &Marks,
) -> Result<Option<Items<Read>>, NoMemory>
    requires graph { IsGraph circuit.now graph.now }
    requires ranking { IsRanking circuit.now ranks.now }
    ensures first { IfOk result (λ found. IfSome found (IsFirstLoop circuit.now)) }
    ensures no_loop { IfOk result (λ found. IfNone found ((v : ReadOf) → IsOnLoop circuit.now v → ⊥)) }
{
    for node in graph.nodes.items() {
        if let Some(cycle) = loop_from(alloc, circuit, graph, ranks, *node)? {
            return Ok(Some(cycle));
        }
    }
    Ok(None)
}
