//! Functions with their literals changed: inverted, or one variable's replaced by a function.
ghost use Rattle.std.specs.Prelude.{◌≡◌, ◌<◌, ◌^◌, not, length, IfOk};
ghost use Rattle.bdd.specs.Diagram.{IsValid, function_of, IsCanonical, Keeps};
ghost use Rattle.rails.specs.Points.{opposite as opposite_of, mirror, inverse as inverse_of, replacement, put as put_in, put_at, Is};
ghost use Rattle.rails.specs.Steps.{IsPairedBy, ArePaired, IsWithin};
ghost use Rattle.rails.specs.Compose.{AreImages};

use crate::composing::compose;
use crate::{Rail, Side};
use bdd::{Graph, NoNode, Ref};
use mig_base::Var;
use std::alloc::Global;
use std::collections::HashMap;

/// The function of the inverted expression: each literal becomes its complement, and the whole is negated.
pub(crate) fn inverted(
    alloc: Global,
    graph: &mut Graph,
    rails: &[Rail],
    f: Ref,
) -> Result<Ref, NoNode>
    requires fit { graph.old.vars ≡ length rails.now }
    requires paired { ArePaired rails.now }
    requires valid { IsValid graph.old f }
    ensures keeps { Keeps graph.old graph.new }
    ensures canonical { IsCanonical graph.new }
    ensures inverse { IfOk result (Is graph.new (inverse_of rails.now (function_of graph.old f))) }
{
    let images = mirror_images(alloc, graph, rails)?;
    let mut known = HashMap::new(alloc);
    let mirrored = compose(graph, f, images.as_slice(), &mut known)?;
    graph.not(mirrored)
}

/// `f` with the true literals of `v` replaced by `g`, and the complement ones by the inverse of `g`.
pub(crate) fn replaced(
    alloc: Global,
    graph: &mut Graph,
    rails: &[Rail],
    f: Ref,
    v: Var,
    g: Ref,
) -> Result<Ref, NoNode>
    requires fit { graph.old.vars ≡ length rails.now }
    requires paired { ArePaired rails.now }
    requires valid { IsValid graph.old f }
    requires valid_g { IsValid graph.old g }
    ensures keeps { Keeps graph.old graph.new }
    ensures canonical { IsCanonical graph.new }
    ensures replacement { IfOk result (Is graph.new (replacement rails.now (function_of graph.old f) v (function_of graph.old g))) }
{
    let inverse = inverted(alloc, graph, rails, g)?;
    let images = put_images(alloc, graph, rails, v, g, inverse)?;
    let mut known = HashMap::new(alloc);
    compose(graph, f, images.as_slice(), &mut known)
}

/// The image of each Boolean where all literals are inverted.
fn mirror_images(alloc: Global, graph: &mut Graph, rails: &[Rail]) -> Result<Vec<Ref>, NoNode>
    requires fit { graph.old.vars ≡ length rails.now }
    requires paired { ArePaired rails.now }
    ensures keeps { Keeps graph.old graph.new }
    ensures canonical { IsCanonical graph.new }
    ensures count { IfOk result (λ images. length images.items ≡ length rails.now) }
    ensures images { IfOk result (λ images. AreImages graph.new (mirror rails.now) images.items) }
{
    let mut images = Vec::new(alloc);
    for place in 0..graph.vars() {
        let image = opposite(graph, place, rails[place as usize].side)?;
        images.push(image)?;
    }
    Ok(images)
}

/// The image of the Boolean at a place where all literals are inverted.
fn opposite(graph: &mut Graph, place: u32, side: Side) -> Result<Ref, NoNode>
    requires place { place < graph.old.vars }
    requires within { IsWithin graph.old.vars place side }
    requires few { graph.old.vars < 2 ^ 32 }
    ensures keeps { Keeps graph.old graph.new }
    ensures canonical { IsCanonical graph.new }
    ensures image { IfOk result (Is graph.new (λ p. opposite_of side p place)) }
{
    match side {
        Side::Pure => variable(graph, place),
        Side::High => negated(graph, place + 1),
        Side::Low => negated(graph, place - 1),
    }
}

/// The Boolean at a place.
fn variable(graph: &mut Graph, place: u32) -> Result<Ref, NoNode>
    requires { place < graph.old.vars }
    ensures keeps { Keeps graph.old graph.new }
    ensures canonical { IsCanonical graph.new }
    ensures variable { IfOk result (Is graph.new (λ p. p place)) }
{
    graph.var(place)
}

/// The negation of the Boolean at a place.
fn negated(graph: &mut Graph, place: u32) -> Result<Ref, NoNode>
    requires { place < graph.old.vars }
    ensures keeps { Keeps graph.old graph.new }
    ensures canonical { IsCanonical graph.new }
    ensures negation { IfOk result (Is graph.new (λ p. not (p place))) }
{
    let x = graph.var(place)?;
    graph.not(x)
}

/// The image of each Boolean where the literals of `v` are replaced.
fn put_images(
    alloc: Global,
    graph: &mut Graph,
    rails: &[Rail],
    v: Var,
    g: Ref,
    inverse: Ref,
) -> Result<Vec<Ref>, NoNode>
    requires fit { graph.old.vars ≡ length rails.now }
    requires valid { IsValid graph.old g }
    requires inverse_valid { IsValid graph.old inverse }
    ensures keeps { Keeps graph.old graph.new }
    ensures canonical { IsCanonical graph.new }
    ensures count { IfOk result (λ images. length images.items ≡ length rails.now) }
    ensures images { IfOk result (λ images. AreImages graph.new (λ p. put_in rails.now v (function_of graph.old g p) (function_of graph.old inverse p) p) images.items) }
{
    let mut images = Vec::new(alloc);
    for place in 0..graph.vars() {
        let image = put(graph, place, rails[place as usize], v, g, inverse)?;
        images.push(image)?;
    }
    Ok(images)
}

/// The image of the Boolean at a place where the literals of `v` are replaced.
fn put(
    graph: &mut Graph,
    place: u32,
    rail: Rail,
    v: Var,
    g: Ref,
    inverse: Ref,
) -> Result<Ref, NoNode>
    requires place { place < graph.old.vars }
    requires valid { IsValid graph.old g }
    requires inverse_valid { IsValid graph.old inverse }
    ensures keeps { Keeps graph.old graph.new }
    ensures canonical { IsCanonical graph.new }
    ensures image { IfOk result (Is graph.new (λ p. put_at (Some rail) v (function_of graph.old g p) (function_of graph.old inverse p) (p place))) }
{
    if rail.var != v {
        return variable(graph, place);
    }
    let _count = graph.vars();
    match rail.side {
        Side::Pure | Side::High => Ok(g),
        Side::Low => Ok(inverse),
    }
}
