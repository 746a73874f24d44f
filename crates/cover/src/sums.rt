//! Products, and sums of products, as functions of a graph.
ghost use Rattle.std.specs.Prelude.{◌<◌, IfOk, All, length};
ghost use Rattle.bdd.specs.Diagram.{IsCanonical, Keeps};
ghost use Rattle.cover.specs.Sums.{IsWithin, IsLiteralRef, IsProductRef, AreSumsBefore};

use bdd::{Graph, NoNode, Ref};
use primes::Term;
use std::alloc::Global;

/// The function of a literal.
fn literal(graph: &mut Graph, place: u32, plain: bool) -> Result<Ref, NoNode>
    requires { place < graph.old.vars }
    ensures keeps { Keeps graph.old graph.new }
    ensures canonical { IsCanonical graph.new }
    ensures literal { IfOk result (IsLiteralRef graph.new place plain) }
{
    let variable = graph.var(place)?;
    if plain {
        return Ok(variable);
    }
    graph.not(variable)
}

/// The function of a product.
pub(crate) fn product(graph: &mut Graph, term: &Term) -> Result<Ref, NoNode>
    requires { IsWithin graph.old.vars term.now }
    ensures keeps { Keeps graph.old graph.new }
    ensures canonical { IsCanonical graph.new }
    ensures product { IfOk result (IsProductRef graph.new term.now) }
{
    let mut product = graph.constant(true);
    for (place, plain) in term.items() {
        let literal = literal(graph, *place, *plain)?;
        product = graph.and(product, literal)?;
    }
    Ok(product)
}

/// For each term the sum of those before it.
pub(crate) fn sums_before(
    alloc: Global,
    graph: &mut Graph,
    terms: &[Term],
) -> Result<Vec<Ref>, NoNode>
    requires { All (IsWithin graph.old.vars) terms.now }
    ensures keeps { Keeps graph.old graph.new }
    ensures canonical { IsCanonical graph.new }
    ensures sums { IfOk result
        (λ sums. AreSumsBefore graph.new terms.now (length terms.now) sums.items) }
{
    let mut sum = graph.constant(false);
    let mut sums = Vec::with_capacity(alloc, terms.len())?;
    for term in terms {
        sums.push(sum)?;
        let product = product(graph, term)?;
        sum = graph.or(sum, product)?;
    }
    Ok(sums)
}
