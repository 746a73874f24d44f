//! The deletion of the primes that are not needed.
ghost use Rattle.std.specs.Prelude.{◌≡◌, ◌↔◌, IfOk, IsTrue, All, []};
ghost use Rattle.bdd.specs.Diagram.{IsValid, function_of, IsCanonical, Keeps};
ghost use Rattle.primes.specs.Prime.{IsImplicant};
ghost use Rattle.cover.specs.Cover.{IsLeft};
ghost use Rattle.cover.specs.Sums.{IsWithin};

use crate::sums::{product, sums_before};
use bdd::{Graph, NoNode, Ref};
use primes::Term;
use std::alloc::Global;

/// What is left of the terms when, from the last to the first, each is deleted where those left still cover `f`.
pub(crate) fn reduced(
    alloc: Global,
    graph: &mut Graph,
    f: Ref,
    terms: &[Term],
) -> Result<Vec<Term>, NoNode>
    requires valid { IsValid graph.old f }
    requires within { All (IsWithin graph.old.vars) terms.now }
    requires implicants { All (IsImplicant (function_of graph.old f)) terms.now }
    ensures keeps { Keeps graph.old graph.new }
    ensures canonical { IsCanonical graph.new }
    ensures left { IfOk result
        (λ left. IsLeft (function_of graph.old f) [] terms.now left.items) }
{
    let before = sums_before(alloc, graph, terms)?;
    let mut after = graph.constant(false);
    let mut left = Vec::new(alloc);
    for i in (0..terms.len()).rev() {
        let others = graph.or(before[i], after)?;
        if !graph.same(others, f) {
            let product = product(graph, &terms[i])?;
            after = graph.or(after, product)?;
            left.push(terms[i].copied(alloc)?)?;
        }
    }
    left.reverse();
    Ok(left)
}
