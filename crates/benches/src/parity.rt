//! A parity, whose primes are the points where it holds.
ghost use Rattle.std.specs.Prelude.{◌≡◌, IfOk};
ghost use Rattle.bdd.specs.Diagram.{IsValid, Keeps};

use bdd::{Graph, NoNode, Ref};
use primes::{PrimeError, primes};
use std::alloc::Global;

/// The variables of the parity.
const VARS: u32 = 13;

/// The number of primes of the parity.
pub fn count_primes(alloc: Global, most: u32) -> Result<u64, PrimeError> {
    let mut graph = Graph::new(alloc, VARS)?;
    let f = parity(&mut graph)?;
    let terms = primes(alloc, &mut graph, f, most)?;
    Ok(terms.len() as u64)
}

/// Whether an odd number of variables is true.
fn parity(graph: &mut Graph) -> Result<Ref, NoNode>
    requires { graph.old.vars ≡ VARS }
    ensures valid { IfOk result (IsValid graph.new) }
{
    let mut f = graph.constant(false);
    for v in 0..VARS {
        let x = graph.var(v)?;
        let not_f = graph.not(f)?;
        f = graph.ite(x, not_f, f)?;
    }
    Ok(f)
}
