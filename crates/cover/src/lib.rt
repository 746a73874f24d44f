//! The cover of a Boolean function: its primes without those that are not needed, the last deleted first.
#![tactic(auto)]

ghost use Rattle.std.specs.Prelude.{◌≡◌, ℕ, Bool, List, IfOk, IfErr, OnOk};
ghost use Rattle.bdd.specs.Diagram.{IsValid, function_of, IsCanonical, Keeps};
ghost use Rattle.primes.specs.Prime.{Function, Product, in_some, HasMorePrimes};
ghost use Rattle.primes.specs.Refusal.{IsRefusal};
ghost use Rattle.cover.specs.Cover.{IsCover, IsIrredundant};

mod reduction;
mod sums;
#[cfg(test)]
mod tests;

use bdd::{Graph, Ref};
use primes::{PrimeError, Term, primes};
use std::alloc::Global;

/// The cover of `f`: of its primes, in their order, each is deleted from the last to the first where those left still
/// cover `f`.
///
/// `Over` where `f` has more than `most` primes, and `Memory` where there is none left. After any answer the graph may
/// have more nodes, and earlier refs keep their functions.
pub fn cover(alloc: Global, graph: &mut Graph, f: Ref, most: u32) -> Result<Vec<Term>, PrimeError>
    requires { IsValid graph.old f }
    ensures keeps { Keeps graph.old graph.new }
    ensures canonical { IsCanonical graph.new }
    ensures cover { IfOk result (λ terms. IsCover (function_of graph.old f) terms.items) }
    ensures same_function { IfOk result
        (λ terms. (p : ℕ → Bool) → function_of graph.old f p ≡ in_some terms.items p) }
    ensures irredundant { IfOk result
        (λ terms. IsIrredundant (function_of graph.old f) terms.items) }
    ensures few { OnOk result (HasMorePrimes (function_of graph.old f) most → ⊥) }
    ensures refusal { IfErr result (IsRefusal (function_of graph.old f) most) }
{
    let terms = primes(alloc, graph, f, most)?;
    Ok(reduction::reduced(alloc, graph, f, terms.as_slice())?)
}

/// A function has no other cover.
pub fn cover_is_unique()
    ensures { (f : Function) (ts us : List Product) → IsCover f ts → IsCover f us → ts ≡ us }
{}
