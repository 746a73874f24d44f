//! The recursion over the choices of a diagram.
ghost use Rattle.std.specs.Prelude.{IfOk, IfErr};
ghost use Rattle.bdd.specs.Diagram.{IsValid, function_of, IsCanonical, Keeps};
ghost use Rattle.primes.specs.Steps.{AreFound, IsGivenUp};
ghost use Rattle.primes.specs.Memo.{AreKnown};

use crate::terms::{combined, copies};
use crate::{PrimeError, Term};
use bdd::{Graph, Ref};
use std::alloc::Global;
use std::collections::HashMap;

/// All primes of `f`, in some order, with the lists found so far in `known`.
///
/// No part of a function has more primes than the whole, so a part with more than `most` settles the answer.
pub(crate) fn find(
    alloc: Global,
    graph: &mut Graph,
    known: &mut HashMap<Ref, Vec<Term>>,
    f: Ref,
    most: u32,
) -> Result<Vec<Term>, PrimeError>
    requires valid { IsValid graph.old f }
    requires known { AreKnown (λ terms. terms.items) graph.old most known.old }
    ensures keeps { Keeps graph.old graph.new }
    ensures canonical { IsCanonical graph.new }
    ensures known { AreKnown (λ terms. terms.items) graph.new most known.new }
    ensures found { IfOk result (λ terms. AreFound (function_of graph.old f) most terms.items) }
    ensures given_up { IfErr result (IsGivenUp (function_of graph.old f) most) }
{
    let split = graph.split(f);
    if let Some(terms) = known.get(&f) {
        return Ok(copies(alloc, terms.as_slice())?);
    }
    let Some((place, low, high)) = split else {
        let one = graph.constant(true);
        return of_constant(alloc, graph.same(f, one), most);
    };
    let both = graph.and(low, high)?;
    let shared = find(alloc, graph, known, both, most)?;
    let lows = find(alloc, graph, known, low, most)?;
    let highs = find(alloc, graph, known, high, most)?;
    let terms = combined(alloc, place, shared, lows.as_slice(), highs.as_slice())?;
    if terms.len() > most as usize {
        return Err(PrimeError::Over { most });
    }
    let copy = copies(alloc, terms.as_slice())?;
    known.insert(f, copy)?;
    Ok(terms)
}

/// The constant 0 has no prime, and the constant 1 has the empty product.
fn of_constant(alloc: Global, value: bool, most: u32) -> Result<Vec<Term>, PrimeError>
    ensures found { IfOk result (λ terms. AreFound (λ _. value) most terms.items) }
    ensures given_up { IfErr result (IsGivenUp (λ _. value) most) }
{
    let mut terms = Vec::new(alloc);
    if value {
        if most == 0 {
            return Err(PrimeError::Over { most });
        }
        terms.push(Term::new(Vec::new(alloc)))?;
    }
    Ok(terms)
}
