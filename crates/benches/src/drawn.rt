//! Random functions: the value at each point is drawn.
ghost use Rattle.std.specs.Prelude.{◌≡◌, ◌≤◌, IfOk};
ghost use Rattle.bdd.specs.Diagram.{IsValid, Keeps};

use bdd::{Graph, NoNode, Ref};
use cover::cover;
use primes::{PrimeError, primes};
use rand_core::utils::NextWord;
use rand_pcg::Pcg32;
use std::alloc::Global;

/// The variables of each function.
const VARS: u32 = 12;

/// What is found for each function.
#[derive(Clone, Copy)]
pub enum Wanted {
    Primes,
    Cover,
}

/// The products that were found for all functions together. Each function has a graph of its own.
pub fn count_products(
    alloc: Global,
    functions: u32,
    wanted: Wanted,
    most: u32,
) -> Result<u64, PrimeError> {
    let mut words = Pcg32::new(42, 54);
    let mut sum: u64 = 0;
    for _ in 0..functions {
        let mut graph = Graph::new(alloc, VARS)?;
        let f = drawn(&mut graph, &mut words, 0)?;
        let terms = match wanted {
            Wanted::Primes => primes(alloc, &mut graph, f, most)?,
            Wanted::Cover => cover(alloc, &mut graph, f, most)?,
        };
        sum = sum.saturating_add(terms.len() as u64);
    }
    Ok(sum)
}

/// A function of the variables from `v` on.
fn drawn(graph: &mut Graph, words: &mut Pcg32, v: u32) -> Result<Ref, NoNode>
    requires vars { graph.old.vars ≡ VARS }
    requires within { v ≤ VARS }
    ensures keeps { Keeps graph.old graph.new }
    ensures valid { IfOk result (IsValid graph.new) }
{
    if v == VARS {
        return Ok(graph.constant(words.next_word() % 2 == 1));
    }
    let low = drawn(graph, words, v + 1)?;
    let high = drawn(graph, words, v + 1)?;
    let x = graph.var(v)?;
    graph.ite(x, high, low)
}
