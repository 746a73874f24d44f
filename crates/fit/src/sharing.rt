//! Rows that the registered units of a chip share.
ghost use Rattle.std.specs.Prelude.{◌≡◌, ◌||◌, not, [], ◌∷◌, is_some, is_none, if◌then◌else◌};
ghost use Rattle.new_board.specs.NewChip.{enable_net};
ghost use Rattle.std.specs.List.{list_any};
ghost use Rattle.mig_base.specs.Structure.{same_literal as literal_same};
ghost use Rattle.plans.specs.UnitBreaches as spec;

use avail::{Old, product_enables, same_bool, same_read};
use mig_base::{Items, Literal};

fn same_literal(x: &Literal, y: &Literal) -> bool
    ensures { result ≡ literal_same x.now y.now }
{
    same_read(x.source, y.source) && same_bool(x.high, y.high)
}

/// Whether a literal is one of these.
fn has(lits: &[Literal], literal: &Literal) -> bool
    ensures { result ≡ list_any (literal_same literal.now) lits.now }
{
    lits.iter().any(|other| same_literal(literal, other))
}

/// Whether each literal of the second product stands in the first.
fn has_all(xs: &[Literal], ys: &[Literal]) -> bool
    ensures { result ≡ spec.has_all xs.now ys.now }
{
    ys.iter().all(|y| has(xs, y))
}

/// Whether two products have the same literals.
fn same_product(xs: &[Literal], ys: &[Literal]) -> bool
    ensures { result ≡ spec.same_product xs.now ys.now }
{
    has_all(xs, ys) && has_all(ys, xs)
}

/// Whether a unit's products for a row and those of another one are at most one each, and the same.
fn share_row(products: &[Items<Literal>], others: &[Items<Literal>]) -> bool
    ensures { result ≡ spec.share_row products.now others.now }
{
    match products {
        [] => others.is_empty(),
        [own] => is_row(others, own.items()),
        _ => false,
    }
}

/// Whether these products are this one alone.
fn is_row(products: &[Items<Literal>], own: &[Literal]) -> bool
    ensures { result ≡ spec.share_row (own.now ∷ []) products.now }
{
    match products {
        [other] => same_product(own, other.items()),
        _ => false,
    }
}

/// Whether a row has two products or more.
pub(crate) fn are_many(products: &[Items<Literal>]) -> bool
    ensures { result ≡ spec.are_many products.now }
{
    products.len() > 1
}

/// Whether the products of a reset or preset can't be the row of a chip whose first registered unit has the others: they are two or
/// more, or not Never on a V8, or not those of the first registered unit on a 22V10.
pub(crate) fn breaks_reset(
    on_22: bool,
    products: &[Items<Literal>],
    firsts: &[Items<Literal>],
) -> bool
    ensures { result ≡ spec.breaks_reset on_22 products.now firsts.now }
{
    are_many(products) || breaks_row(on_22, products, firsts)
}

fn breaks_row(on_22: bool, products: &[Items<Literal>], firsts: &[Items<Literal>]) -> bool
    ensures { result ≡ (if on_22 then not (spec.share_row products.now firsts.now) else not (spec.is_never products.now)) }
{
    if on_22 {
        !share_row(products, firsts)
    } else {
        !products.is_empty()
    }
}

/// Whether the enable pin of a V8 can't have the enable of these products, or the first registered unit of the chip has another.
pub(crate) fn breaks_pin(old: &Old, products: &[Items<Literal>], firsts: &[Items<Literal>]) -> bool
    ensures { result ≡ (is_none (enable_net old.now (spec.row_gate products.now)) || not (spec.share_row products.now firsts.now)) }
{
    !has_net(old, products) || !share_row(products, firsts)
}

/// Whether there is a net for the enable pin.
fn has_net(old: &Old, products: &[Items<Literal>]) -> bool
    ensures { result ≡ is_some (enable_net old.now (spec.row_gate products.now)) }
{
    match products {
        [] => true,
        [lits, ..] => product_enables(old, lits.items()).is_some(),
    }
}
