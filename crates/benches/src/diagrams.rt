//! Functions whose diagrams are known: a parity and a carry, each built anew in many graphs.
ghost use Rattle.std.specs.Prelude.{◌≡◌, ◌*◌, ◌<◌, IfOk};
ghost use Rattle.bdd.specs.Diagram.{IsValid, Keeps};

use bdd::{Graph, NoNode, Ref};
use std::alloc::Global;

/// The variables of the parity.
const PARITY: u32 = 24;

/// The bits of the adder. Each bit has two variables, the highest bit's first.
const BITS: u32 = 12;

/// The nodes of so many graphs of the parity together.
pub fn parity_nodes(alloc: Global, graphs: u32) -> Result<u64, NoNode> {
    let mut sum: u64 = 0;
    for _ in 0..graphs {
        let mut graph = Graph::new(alloc, PARITY)?;
        parity(&mut graph)?;
        sum = sum.saturating_add(graph.nodes());
    }
    Ok(sum)
}

/// The nodes of so many graphs of the carry together.
pub fn carry_nodes(alloc: Global, graphs: u32) -> Result<u64, NoNode> {
    let mut sum: u64 = 0;
    for _ in 0..graphs {
        let mut graph = Graph::new(alloc, 2 * BITS)?;
        carry(&mut graph)?;
        sum = sum.saturating_add(graph.nodes());
    }
    Ok(sum)
}

/// Whether an odd number of variables is true.
fn parity(graph: &mut Graph) -> Result<Ref, NoNode>
    requires { graph.old.vars ≡ PARITY }
    ensures keeps { Keeps graph.old graph.new }
    ensures valid { IfOk result (IsValid graph.new) }
{
    let mut f = graph.constant(false);
    for above in 0..PARITY {
        f = differing(graph, PARITY - 1 - above, f)?;
    }
    Ok(f)
}

/// Whether the variable `v` and `f` differ.
fn differing(graph: &mut Graph, v: u32, f: Ref) -> Result<Ref, NoNode>
    requires var { v < graph.old.vars }
    requires valid { IsValid graph.old f }
    ensures keeps { Keeps graph.old graph.new }
    ensures valid { IfOk result (IsValid graph.new) }
{
    let x = graph.var(v)?;
    let not_f = graph.not(f)?;
    graph.ite(x, not_f, f)
}

/// The carry out of the highest bit of a sum of two numbers.
fn carry(graph: &mut Graph) -> Result<Ref, NoNode>
    requires { graph.old.vars ≡ 2 * BITS }
    ensures keeps { Keeps graph.old graph.new }
    ensures valid { IfOk result (IsValid graph.new) }
{
    let mut f = graph.constant(false);
    for bit in 0..BITS {
        let x = 2 * (BITS - 1 - bit);
        f = majority(graph, x, x + 1, f)?;
    }
    Ok(f)
}

/// Whether at least two of the variables `v` and `w` and of `f` hold.
fn majority(graph: &mut Graph, v: u32, w: u32, f: Ref) -> Result<Ref, NoNode>
    requires v_in { v < graph.old.vars }
    requires w_in { w < graph.old.vars }
    requires valid { IsValid graph.old f }
    ensures keeps { Keeps graph.old graph.new }
    ensures valid { IfOk result (IsValid graph.new) }
{
    let y = graph.var(w)?;
    let all = graph.and(y, f)?;
    let any = graph.or(y, f)?;
    let x = graph.var(v)?;
    graph.ite(x, any, all)
}
