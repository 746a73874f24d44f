//! Products of literals, and their order.
ghost use Rattle.std.specs.Prelude.{◌≡◌, ◌∷◌, ◌++◌, length, IfOk, OnOk};
ghost use Rattle.primes.specs.Prime.{literal_cmp, product_cmp};
ghost use Rattle.primes.specs.Steps.{has, apart, prefixed, combined};
ghost use Rattle.std.specs.Cmp.Lexicographic.{slice_cmp};

use std::alloc::{AllocError, Global};
use std::cmp::Ordering;
use std::marker::Model;

/// A product of literals, each a place and whether it is plain.
#[derive(Drop)]
pub struct Term {
    literals: Vec<(u32, bool)>,
}

impl Model for Term {
    ghost use Rattle.std.specs.Prelude.{List};
    ghost use Rattle.primes.specs.Prime.{Literal};

    ghost Value = { List Literal };

    ghost view = { λ t. t.literals.items };
}

impl Term {
    /// The product of these literals.
    pub fn new(items: Vec<(u32, bool)>) -> Term
        ensures { result ≡ items.items }
    {
        Term { literals: items }
    }

    /// The literals, in order.
    pub fn items(&self) -> &[(u32, bool)]
        ensures { result.now ≡ self.now }
    {
        self.literals.as_slice()
    }

    /// The same product.
    pub fn copied(&self, alloc: Global) -> Result<Term, AllocError>
        ensures { IfOk result (λ t. t ≡ self.now) }
    {
        let literals = Vec::from_slice(alloc, self.items())?;
        Ok(Term { literals })
    }

    /// The product with one literal more, at its front.
    fn after(&self, alloc: Global, first: (u32, bool)) -> Result<Term, AllocError>
        ensures { IfOk result (λ t. t ≡ first ∷ self.now) }
    {
        let mut literals = Vec::with_capacity(alloc, self.literals.len() + 1)?;
        literals.push(first)?;
        literals.extend_from_slice(self.items())?;
        Ok(Term { literals })
    }
}

/// The order of products: by number of literals, and then by the literals.
pub(crate) fn compare(a: &Term, b: &Term) -> Ordering
    ensures { result ≡ product_cmp a.now b.now }
{
    let (a, b) = (a.items(), b.items());
    match a.len().cmp(&b.len()) {
        Ordering::Equal => compare_literals(a, b),
        unequal => unequal,
    }
}

/// The order of equally many literals: by the first place where they differ, plain before negated.
fn compare_literals(a: &[(u32, bool)], b: &[(u32, bool)]) -> Ordering
    requires { length a.now ≡ length b.now }
    ensures { result ≡ slice_cmp literal_cmp a.now b.now }
{
    for (x, y) in a.iter().zip(b) {
        let order = x.0.cmp(&y.0).then(y.1.cmp(&x.1));
        if order.is_ne() {
            return order;
        }
    }
    Ordering::Equal
}

/// The product is one of the terms.
fn contains(terms: &[Term], term: &Term) -> bool
    ensures { result ≡ has terms.now term.now }
{
    terms.iter().any(|other| compare(other, term).is_eq())
}

/// Copies of the terms.
pub(crate) fn copies(alloc: Global, terms: &[Term]) -> Result<Vec<Term>, AllocError>
    ensures { IfOk result (λ copies. copies.items ≡ terms.now) }
{
    let mut copies = Vec::with_capacity(alloc, terms.len())?;
    for term in terms {
        copies.push(term.copied(alloc)?)?;
    }
    Ok(copies)
}

/// Puts those of a side's primes that are not shared to the terms, each with the literal at its front.
fn add_apart(
    alloc: Global,
    terms: &mut Vec<Term>,
    shared: &[Term],
    side: &[Term],
    first: (u32, bool),
) -> Result<(), AllocError>
    ensures { OnOk result
        (terms.new.items ≡ terms.old.items ++ prefixed first (apart shared.now side.now)) }
{
    for term in side {
        if !contains(shared, term) {
            terms.push(term.after(alloc, first)?)?;
        }
    }
    Ok(())
}

/// The primes of a choice by the place, from those of what the sides share and of the sides.
pub(crate) fn combined(
    alloc: Global,
    place: u32,
    mut shared: Vec<Term>,
    lows: &[Term],
    highs: &[Term],
) -> Result<Vec<Term>, AllocError>
    ensures { IfOk result (λ terms. terms.items ≡ combined place shared.items lows.now highs.now) }
{
    let mut terms = Vec::new(alloc);
    add_apart(alloc, &mut terms, shared.as_slice(), highs, (place, true))?;
    add_apart(alloc, &mut terms, shared.as_slice(), lows, (place, false))?;
    terms.append(&mut shared)?;
    Ok(terms)
}
