//! Literals, products and sums as functions of their Booleans.
ghost use Rattle.std.specs.Prelude.{◌≡◌, ◌<◌, All, IfOk, length};
ghost use Rattle.bdd.specs.Diagram.{IsCanonical, Keeps};
ghost use Rattle.mig_base.specs.Bools.{same_bool};
ghost use Rattle.rails.specs.Points.{carries as rail_carries, has_literal as side_has, literal_holds, row_holds, sum_holds, read_off as off, Is};
ghost use Rattle.rails.specs.Steps.{IsCarried};

use crate::{Rail, Side};
use bdd::{Graph, NoNode, Ref};
use mig_base::{VarLit, VarProduct};

/// The product of literals.
pub(crate) fn row(graph: &mut Graph, rails: &[Rail], lits: &[VarLit]) -> Result<Ref, NoNode>
    requires fit { graph.old.vars ≡ length rails.now }
    requires carried { All (IsCarried rails.now) lits.now }
    ensures keeps { Keeps graph.old graph.new }
    ensures canonical { IsCanonical graph.new }
    ensures row { IfOk result (Is graph.new (row_holds rails.now lits.now)) }
{
    let mut product = graph.constant(true);
    for lit in lits {
        let x = literal(graph, rails, *lit)?;
        product = graph.and(product, x)?;
    }
    Ok(product)
}

/// The sum of products.
pub(crate) fn sum(graph: &mut Graph, rails: &[Rail], rows: &[VarProduct]) -> Result<Ref, NoNode>
    requires fit { graph.old.vars ≡ length rails.now }
    requires carried { All (λ row. All (IsCarried rails.now) row.lits) rows.now }
    ensures keeps { Keeps graph.old graph.new }
    ensures canonical { IsCanonical graph.new }
    ensures sum { IfOk result (Is graph.new (sum_holds rails.now rows.now)) }
{
    let mut sum = graph.constant(false);
    for product in rows {
        let x = row(graph, rails, product.lits.items())?;
        sum = graph.or(sum, x)?;
    }
    Ok(sum)
}

/// A literal.
fn literal(graph: &mut Graph, rails: &[Rail], lit: VarLit) -> Result<Ref, NoNode>
    requires fit { graph.old.vars ≡ length rails.now }
    requires carried { IsCarried rails.now lit }
    ensures keeps { Keeps graph.old graph.new }
    ensures canonical { IsCanonical graph.new }
    ensures literal { IfOk result (Is graph.new (literal_holds rails.now lit)) }
{
    for place in 0..graph.vars() {
        let rail = rails[place as usize];
        if carries(lit, rail) {
            return read_off(graph, place, rail.side, lit.high);
        }
    }
    unreachable!()
}

/// Whether the literal is read off this Boolean.
fn carries(lit: VarLit, rail: Rail) -> bool
    ensures { result ≡ rail_carries lit rail }
{
    rail.var == lit.var && has_literal(rail.side, lit.high)
}

/// Whether a Boolean of this side speaks of the true literal, or of the complement literal.
fn has_literal(side: Side, high: bool) -> bool
    ensures { result ≡ side_has side high }
{
    match side {
        Side::Pure => true,
        Side::High => high,
        Side::Low => !high,
    }
}

/// The literal by the Boolean at a place.
fn read_off(graph: &mut Graph, place: u32, side: Side, high: bool) -> Result<Ref, NoNode>
    requires { place < graph.old.vars }
    ensures keeps { Keeps graph.old graph.new }
    ensures canonical { IsCanonical graph.new }
    ensures literal { IfOk result (Is graph.new (λ p. off side high (p place))) }
{
    let x = graph.var(place)?;
    match (side, high) {
        (Side::Pure, false) => graph.not(x),
        _ => Ok(x),
    }
}
