//! A function of functions.
ghost use Rattle.std.specs.Prelude.{◌≡◌, length, IfOk};
ghost use Rattle.bdd.specs.Diagram.{IsValid, IsCanonical, Keeps};
ghost use Rattle.rails.specs.Compose.{AllValid, IsComposed, IsTrueTable};

use bdd::{Graph, NoNode, Ref};
use std::collections::HashMap;

/// `f` of the functions in `images`, one for each variable, with what was made so far in `known`.
pub(crate) fn compose(
    graph: &mut Graph,
    f: Ref,
    images: &[Ref],
    known: &mut HashMap<Ref, Ref>,
) -> Result<Ref, NoNode>
    requires valid { IsValid graph.old f }
    requires images { AllValid graph.old images.now }
    requires count { length images.now ≡ graph.old.vars }
    requires known { IsTrueTable graph.old images.now known.old }
    ensures keeps { Keeps graph.old graph.new }
    ensures canonical { IsCanonical graph.new }
    ensures known { IsTrueTable graph.new images.now known.new }
    ensures composed { IfOk result (IsComposed graph.old graph.new images.now f) }
{
    let split = graph.split(f);
    if let Some(r) = known.get(&f) {
        return Ok(*r);
    }
    let Some((v, low, high)) = split else {
        return Ok(f);
    };
    let low = compose(graph, low, images, known)?;
    let high = compose(graph, high, images, known)?;
    let r = graph.ite(images[v as usize], high, low)?;
    known.insert(f, r)?;
    Ok(r)
}
