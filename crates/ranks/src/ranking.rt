ghost use Rattle.std.specs.Prelude.{◌≡◌, ◌<◌, ◌+◌, ◌^◌, length, map, true, false, IfOk, IfSome, IfNone};
ghost use Rattle.mig_base.specs.Reads.{node_reads};
ghost use Rattle.ranks.specs.Graphs.{IsGraph};
ghost use Rattle.ranks.specs.Marked.{number_in, waiting};
ghost use Rattle.ranks.specs.RankEquations.{greatest};
ghost use Rattle.mig_base.specs.Reads.{IsNode};
ghost use Rattle.mig_base.specs.declared.circuit.Read.{Read as ReadOf};
ghost use Rattle.ranks.specs.Ranking.{AreReady, IsBlocked, IsRanking, IsStuck, IsRankOf, IsRanked, IsPassed, undriven};

use crate::graph::Graph;
use crate::marks::Marks;
use mig_base::{Circuit, NoMemory, Read};
use std::alloc::Global;

/// The greatest rank of these nodes, and none where one of them has no rank yet. What the board doesn't have counts as 0.
fn greatest_rank(ranks: &Marks, reads: &[Read]) -> Option<u32>
    ensures all { IfSome result (λ rank. AreReady ranks.now reads.now × (rank ≡ greatest (map (number_in ranks.now) reads.now))) }
    ensures blocked { IfNone result (IsBlocked ranks.now reads.now) }
{
    let mut greatest = 0;
    for read in reads {
        match ranks.ready(*read) {
            None => return None,
            Some(rank) => greatest = rank.max(greatest),
        }
    }
    Some(greatest)
}

/// Whether no unit drives a node.
fn is_undriven(circuit: &Circuit, node: Read) -> bool
    ensures { result ≡ undriven circuit.now node }
{
    match node {
        Read::OfNet(net) => {
            let nets = circuit.nets.items();
            let net = net as usize;
            net < nets.len() && nets[net].drivers.items().is_empty()
        }
        Read::OfRegister(_) => false,
    }
}

/// The rank of a node, and none where something that it reads has no rank yet.
fn rank_of(circuit: &Circuit, graph: &Graph, ranks: &Marks, node: Read) -> Option<u32>
    requires graph { IsGraph circuit.now graph.now }
    requires node { IsNode circuit.now node }
    requires room { (v : ReadOf) → number_in ranks.now v + 1 < 2 ^ 32 }
    ensures rank { IfSome result (IsRankOf circuit.now ranks.now node) }
    ensures blocked { IfNone result (IsBlocked ranks.now (node_reads circuit.now node)) }
{
    if is_undriven(circuit, node) {
        return Some(0);
    }
    match greatest_rank(ranks, graph.reads.of(node)) {
        Some(rank) => Some(rank + 1),
        None => None,
    }
}

/// Gives a node its rank where it has none and all that it reads has one. Answers whether it did.
fn rank_node(circuit: &Circuit, graph: &Graph, ranks: &mut Marks, node: Read) -> bool
    requires graph { IsGraph circuit.now graph.now }
    requires node { IsNode circuit.now node }
    requires ranking { IsRanking circuit.now ranks.old }
    ensures ranking { IsRanking circuit.now ranks.new }
    ensures moved { result ≡ true → waiting ranks.new < waiting ranks.old }
    ensures stays { result ≡ false → (ranks.new ≡ ranks.old) × IsPassed circuit.now ranks.old node }
{
    if !ranks.waits(node) {
        return false;
    }
    match rank_of(circuit, graph, ranks, node) {
        Some(rank) => {
            ranks.set(node, rank);
            true
        }
        None => false,
    }
}

/// Gives ranks to nodes in one pass over all. Answers whether it gave any.
fn rank_pass(circuit: &Circuit, graph: &Graph, ranks: &mut Marks) -> bool
    requires graph { IsGraph circuit.now graph.now }
    requires ranking { IsRanking circuit.now ranks.old }
    ensures ranking { IsRanking circuit.now ranks.new }
    ensures moved { result ≡ true → waiting ranks.new < waiting ranks.old }
    ensures stuck { result ≡ false → IsStuck circuit.now ranks.new }
{
    let mut moved = false;
    for node in graph.nodes.items() {
        if rank_node(circuit, graph, ranks, *node) {
            moved = true;
        }
    }
    moved
}

/// The ranks of all nodes that read no loop over any way.
pub(crate) fn rank_nodes(alloc: Global, circuit: &Circuit, graph: &Graph) -> Result<Marks, NoMemory>
    requires { IsGraph circuit.now graph.now }
    ensures { IfOk result (IsRanked circuit.now) }
{
    let mut ranks = Marks::new(alloc, circuit)?;
    while rank_pass(circuit, graph, &mut ranks) {}
    Ok(ranks)
}
