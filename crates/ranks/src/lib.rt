//! The ranks of a board's nodes, an order of evaluation, and the loop of a board that has none.
#![tactic(auto)]

ghost use Rattle.std.specs.Prelude.{ℕ, ◌≡◌, ◌<◌, ◌+◌, ◌^◌, true, List, length, IfOk, IfErr};
ghost use Rattle.mig_base.specs.declared.circuit.Circuit.{Circuit as CircuitOf};
ghost use Rattle.mig_base.specs.declared.circuit.Read.{Read as ReadOf};
ghost use Rattle.mig_base.specs.Accepted.{Walk};
ghost use Rattle.mig_base.specs.Ranked.{Ranked};
ghost use Rattle.ranks.specs.declared.Ranks.{Ranks as RanksOf};
ghost use Rattle.ranks.specs.FirstLoop.{IsFirstLoop, IsRefusal};
ghost use Rattle.ranks.specs.Order.{IsOrder};
ghost use Rattle.ranks.specs.RankEquations.{IsRanks, rank_in};

mod by_rank;
mod distances;
mod graph;
mod lists;
mod loops;
mod marks;
mod neighbours;
mod ranking;
mod reading;
#[cfg(test)]
mod tests;

use crate::by_rank::by_rank;
use crate::graph::graph_of;
use crate::loops::first_loop;
use crate::ranking::rank_nodes;
use mig_base::{Circuit, Items, NoMemory, Read};
use std::alloc::Global;

/// The ranks of a board's nodes by number, its nodes by rank and then by node order, and the greatest rank.
#[derive(Drop)]
pub struct Ranks {
    pub nets: Items<u32>,
    pub registers: Items<u32>,
    pub order: Items<Read>,
    pub top: u32,
}

/// Why a board's nodes have no ranks: the first loop of nodes that read one another, or want of memory.
#[derive(Drop)]
pub enum RankError {
    Loop { cycle: Items<Read> },
    Memory,
}

impl From<NoMemory> for RankError {
    ghost use Rattle.ranks.specs.declared.RankError.TheVariants.{Memory};

    ghost from_gives = { λ _ e. e ≡ Memory };

    fn from(_: NoMemory) -> Self {
        RankError::Memory
    }
}

/// Whether a board has so few nodes that their numbers and ranks are `u32`.
fn is_few(circuit: &Circuit) -> bool
    ensures { result ≡ true → length circuit.now.nets + length circuit.now.registers + 1 < 2 ^ 32 }
{
    let most = u32::MAX as usize - 1;
    let nets = circuit.nets.items().len();
    nets <= most && circuit.registers.items().len() <= most - nets
}

/// The ranks of a board's nodes. A net without driver has 0, every other node one more than the greatest rank that it reads.
/// Refused where a node reads itself over some way: by the first such node in node order, and on a shortest way back to it
/// each time the first in node order.
pub fn ranks_of(alloc: Global, circuit: &Circuit) -> Result<Ranks, RankError>
    ensures ranks { IfOk result (IsRanks circuit.now) }
    ensures refusal { IfErr result (IsRefusal circuit.now) }
{
    if !is_few(circuit) {
        return Err(RankError::Memory);
    }
    let graph = graph_of(alloc, circuit)?;
    let ranks = rank_nodes(alloc, circuit, &graph)?;
    match first_loop(alloc, circuit, &graph, &ranks)? {
        Some(cycle) => Err(RankError::Loop { cycle }),
        None => Ok(by_rank(alloc, circuit, &graph, &ranks)?),
    }
}

/// Each node has a greater rank than all that it reads.
pub fn ranks_rise()
    ensures { (c : CircuitOf) (r : RanksOf) → IsRanks c r → Ranked c (rank_in r) (r.top + 1) }
{}

/// A board whose nodes have ranks has no node that reads itself over any way.
pub fn ranks_rule_out_loops()
    ensures { (c : CircuitOf) (r : RanksOf) → IsRanks c r → (v : ReadOf) (n : ℕ) → Walk c n v v → ⊥ }
{}

/// The nodes by rank are in an order of evaluation.
pub fn order_is_evaluation()
    ensures { (c : CircuitOf) (r : RanksOf) → IsRanks c r → IsOrder c r.order }
{}

/// A board's nodes have only one set of ranks.
pub fn ranks_are_unique()
    ensures { (c : CircuitOf) (r s : RanksOf) → IsRanks c r → IsRanks c s → r ≡ s }
{}

/// Only one loop is reported of a board.
pub fn first_loop_is_unique()
    ensures { (c : CircuitOf) (one other : List ReadOf) → IsFirstLoop c one → IsFirstLoop c other → one ≡ other }
{}
