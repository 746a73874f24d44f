//! All primes of a Boolean function, from its decision diagram (the recursion of Coudert and Madre 1992).
#![tactic(auto)]

ghost use Rattle.std.specs.Prelude.{◌≡◌, ◌≤◌, List, length, IfOk, IfErr, OnOk};
ghost use Rattle.bdd.specs.Diagram.{IsValid, function_of, IsCanonical, Keeps};
ghost use Rattle.primes.specs.Prime.{Function, Product, Covers, IsPrimeList, HasMorePrimes};
ghost use Rattle.primes.specs.Refusal.{IsRefusal};
ghost use Rattle.primes.specs.declared.PrimeError.TheVariants.{Memory};

mod search;
mod terms;
#[cfg(test)]
mod tests;

use bdd::{Graph, NoNode, Ref};
use std::alloc::{AllocError, AllocFailed, Global};
use std::collections::HashMap;
use std::error::Error;
use std::fmt;
pub use terms::Term;

/// Why there is no list of primes.
#[derive(Clone, Copy, PartialEq, Eq, Debug)]
pub enum PrimeError {
    /// The function has more primes than the caller asked for at most.
    Over { most: u32 },
    /// There is no memory.
    Memory,
}

impl fmt::Display for PrimeError {
    fn fmt<W: fmt::Write>(&self, f: &mut fmt::Formatter<W>) -> fmt::Result {
        match self {
            PrimeError::Over { most } => write!(f, "more than {most} primes"),
            PrimeError::Memory => write!(f, "no memory"),
        }
    }
}

impl Error for PrimeError {}

impl From<AllocError> for PrimeError {
    ghost from_gives = { λ _ e. e ≡ Memory };

    fn from(_error: AllocError) -> PrimeError {
        PrimeError::Memory
    }
}

impl<T: Drop> From<AllocFailed<T>> for PrimeError {
    ghost from_gives = { λ _ e. e ≡ Memory };

    fn from(_error: AllocFailed<T>) -> PrimeError {
        PrimeError::Memory
    }
}

impl From<NoNode> for PrimeError {
    ghost from_gives = { λ _ e. e ≡ Memory };

    fn from(_error: NoNode) -> PrimeError {
        PrimeError::Memory
    }
}

/// All primes of `f`, by number of literals and then by the list of literals, plain before negated.
///
/// `Over` where there are more than `most`, and `Memory` where there is none left. After any answer the graph may have
/// more nodes, and earlier refs keep their functions.
pub fn primes(alloc: Global, graph: &mut Graph, f: Ref, most: u32) -> Result<Vec<Term>, PrimeError>
    requires { IsValid graph.old f }
    ensures keeps { Keeps graph.old graph.new }
    ensures canonical { IsCanonical graph.new }
    ensures primes { IfOk result (λ terms. IsPrimeList (function_of graph.old f) terms.items) }
    ensures covers { IfOk result (λ terms. Covers (function_of graph.old f) terms.items) }
    ensures few { OnOk result (HasMorePrimes (function_of graph.old f) most → ⊥) }
    ensures refusal { IfErr result (IsRefusal (function_of graph.old f) most) }
{
    let mut known = HashMap::new(alloc);
    let mut terms = search::find(alloc, graph, &mut known, f, most)?;
    terms.sort_by(terms::compare)?;
    Ok(terms)
}

/// A function has no other list of all its primes.
pub fn primes_are_unique()
    ensures { (f : Function) (ts us : List Product) → IsPrimeList f ts → IsPrimeList f us → ts ≡ us }
{}
