//! Literals, products and sums over variables and joined nets, as refs.
ghost use Rattle.std.specs.Prelude.{◌≡◌, true, IfOk};
ghost use Rattle.std.specs.List.{list_all};
ghost use Rattle.bdd.specs.Diagram.{IsValid, IsCanonical, Keeps, IsConjunction, IsDisjunction};
ghost use Rattle.rails.specs.Variables.{IsFit};
ghost use Rattle.joiner.specs.Joined.{literal_read, terms_read};
ghost use Rattle.joiner.specs.Pairs.{is_known, lits_known, terms_known, AreProper, Reads};

use crate::pairs::{Pair, pair_of};
use bdd::{NoNode, Ref};
use mig_base::{NoMemory, VarLit, VarProduct};
use rails::Rails;

/// Want of memory for a node is want of memory.
fn or_no_memory(made: Result<Ref, NoNode>) -> Result<Ref, NoMemory>
    ensures { IfOk result (λ r. made ≡ Ok r) }
{
    match made {
        Ok(r) => Ok(r),
        Err(NoNode) => Err(NoMemory),
    }
}

/// The conjunction of two refs.
fn both(rails: &mut Rails, f: Ref, g: Ref) -> Result<Ref, NoMemory>
    requires f { IsValid rails.old.graph f }
    requires g { IsValid rails.old.graph g }
    ensures vars { rails.new.vars ≡ rails.old.vars }
    ensures keeps { Keeps rails.old.graph rails.new.graph }
    ensures canonical { IsCanonical rails.new.graph }
    ensures both { IfOk result (IsConjunction rails.old.graph rails.new.graph f g) }
{
    or_no_memory(rails.graph().and(f, g))
}

/// The disjunction of two refs.
fn either(rails: &mut Rails, f: Ref, g: Ref) -> Result<Ref, NoMemory>
    requires f { IsValid rails.old.graph f }
    requires g { IsValid rails.old.graph g }
    ensures vars { rails.new.vars ≡ rails.old.vars }
    ensures keeps { Keeps rails.old.graph rails.new.graph }
    ensures canonical { IsCanonical rails.new.graph }
    ensures either { IfOk result (IsDisjunction rails.old.graph rails.new.graph f g) }
{
    or_no_memory(rails.graph().or(f, g))
}

/// A literal: of a joined net it is one of the net's pair.
fn literal(rails: &mut Rails, pairs: &[Option<Pair>], lit: VarLit) -> Result<Ref, NoMemory>
    requires fit { IsFit rails.old }
    requires canonical { IsCanonical rails.old.graph }
    requires pairs { AreProper rails.old.vars rails.old.graph pairs.now }
    requires known { is_known rails.old.vars pairs.now lit.var ≡ true }
    ensures vars { rails.new.vars ≡ rails.old.vars }
    ensures keeps { Keeps rails.old.graph rails.new.graph }
    ensures canonical { IsCanonical rails.new.graph }
    ensures literal { IfOk result (Reads rails.old.vars rails.new.graph pairs.now (λ r. literal_read r true lit)) }
{
    if let Some(pair) = pair_of(pairs, lit.var) {
        return Ok(pair.literal(lit.high));
    }
    rails.row(&[lit])
}

/// A product of literals.
fn product(rails: &mut Rails, pairs: &[Option<Pair>], lits: &[VarLit]) -> Result<Ref, NoMemory>
    requires fit { IsFit rails.old }
    requires canonical { IsCanonical rails.old.graph }
    requires pairs { AreProper rails.old.vars rails.old.graph pairs.now }
    requires known { lits_known rails.old.vars pairs.now lits.now ≡ true }
    ensures vars { rails.new.vars ≡ rails.old.vars }
    ensures keeps { Keeps rails.old.graph rails.new.graph }
    ensures canonical { IsCanonical rails.new.graph }
    ensures product { IfOk result (Reads rails.old.vars rails.new.graph pairs.now (λ r. list_all (literal_read r true) lits.now)) }
{
    let mut product = rails.row(&[])?;
    for lit in lits {
        let x = literal(rails, pairs, *lit)?;
        product = both(rails, product, x)?;
    }
    Ok(product)
}

/// A sum of products.
pub(crate) fn sum(
    rails: &mut Rails,
    pairs: &[Option<Pair>],
    terms: &[VarProduct],
) -> Result<Ref, NoMemory>
    requires fit { IsFit rails.old }
    requires canonical { IsCanonical rails.old.graph }
    requires pairs { AreProper rails.old.vars rails.old.graph pairs.now }
    requires known { terms_known rails.old.vars pairs.now terms.now ≡ true }
    ensures vars { rails.new.vars ≡ rails.old.vars }
    ensures keeps { Keeps rails.old.graph rails.new.graph }
    ensures canonical { IsCanonical rails.new.graph }
    ensures sum { IfOk result (Reads rails.old.vars rails.new.graph pairs.now (λ r. terms_read r true terms.now)) }
{
    let mut sum = rails.sum(&[])?;
    for term in terms {
        let x = product(rails, pairs, term.lits.items())?;
        sum = either(rails, sum, x)?;
    }
    Ok(sum)
}
