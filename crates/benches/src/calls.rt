//! Random calls of `ite` over a pool of random products.
ghost use Rattle.std.specs.Prelude.{◌≡◌, ◌<◌, IfOk, All, length};
ghost use Rattle.bdd.specs.Diagram.{Diagram, IsValid, Keeps};

use bdd::{Graph, NoNode, Ref};
use rand_core::utils::NextWord;
use rand_pcg::Pcg32;
use std::alloc::Global;

const VARS: u32 = 24;

const POOL: usize = 64;

/// The nodes of the graph after so many calls.
pub fn nodes(alloc: Global, calls: u32) -> Result<u64, NoNode> {
    let mut graph = Graph::new(alloc, VARS)?;
    let mut words = Pcg32::new(42, 54);
    let pool = products(alloc, &mut graph, &mut words)?;
    call_often(&mut graph, &mut words, &pool, calls)?;
    Ok(graph.nodes())
}

/// A pool of random products.
fn products(alloc: Global, graph: &mut Graph, words: &mut Pcg32) -> Result<Vec<Ref>, NoNode>
    requires { graph.old.vars ≡ VARS }
    ensures count { IfOk result (λ pool. length pool.items ≡ POOL) }
    ensures valid { IfOk result (λ pool. All (IsValid graph.new) pool.items) }
{
    let mut pool = Vec::new(alloc);
    for _ in 0..POOL {
        let f = product(graph, words)?;
        pool.push(f)?;
    }
    Ok(pool)
}

/// Random calls over the pool.
fn call_often(graph: &mut Graph, words: &mut Pcg32, pool: &[Ref], calls: u32) -> Result<(), NoNode>
    requires some { 0 < length pool.now }
    requires valid { All (IsValid graph.old) pool.now }
{
    for _ in 0..calls {
        let f = pick(pool, words.next_word());
        let g = pick(pool, words.next_word());
        let h = pick(pool, words.next_word());
        graph.ite(f, g, h)?;
    }
    Ok(())
}

/// The product of three random literals.
fn product(graph: &mut Graph, words: &mut Pcg32) -> Result<Ref, NoNode>
    requires { graph.old.vars ≡ VARS }
    ensures keeps { Keeps graph.old graph.new }
    ensures valid { IfOk result (IsValid graph.new) }
{
    let mut f = graph.constant(true);
    for _ in 0..3 {
        let literal = literal(graph, words.next_word())?;
        f = graph.and(f, literal)?;
    }
    Ok(f)
}

/// The variable that the low half of the word names, negated where the high half is odd.
fn literal(graph: &mut Graph, word: u32) -> Result<Ref, NoNode>
    requires { graph.old.vars ≡ VARS }
    ensures keeps { Keeps graph.old graph.new }
    ensures valid { IfOk result (IsValid graph.new) }
{
    let x = graph.var(word % 65_536 % VARS)?;
    if word / 65_536 % 2 == 1 {
        graph.not(x)
    } else {
        Ok(x)
    }
}

/// The member of the pool that the word names.
fn pick(pool: &[Ref], word: u32) -> Ref
    requires { 0 < length pool.now }
    ensures { (d : Diagram) → All (IsValid d) pool.now → IsValid d result }
{
    pool[word as usize % pool.len()]
}
