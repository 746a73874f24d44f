//! The value of a function where X variables have both Booleans false, or both true.
ghost use Rattle.std.specs.Prelude.{◌≡◌, ◌<◌, length};
ghost use Rattle.bdd.specs.Diagram.{IsValid, function_of};
ghost use Rattle.rails.specs.Steps.{AreNumbered};
ghost use Rattle.rails.specs.Levels.{point_under, side_under as under};

use crate::{Rail, Side};
use bdd::{Graph, Ref};
use mig_base::Level;

/// Whether `f` holds under levels, with both Booleans of each X variable at `unknown`.
pub(crate) fn holds_under(
    graph: &Graph,
    rails: &[Rail],
    f: Ref,
    levels: &[Level],
    unknown: bool,
) -> bool
    requires fit { graph.now.vars ≡ length rails.now }
    requires numbered { AreNumbered (length levels.now) rails.now }
    requires valid { IsValid graph.now f }
    ensures { result ≡ function_of graph.now f (point_under unknown rails.now levels.now) }
{
    let mut at = f;
    while let Some((place, low, high)) = graph.split(at) {
        let rail = rails[place as usize];
        let level = levels[rail.variable as usize];
        at = if side_under(unknown, rail.side, level) {
            high
        } else {
            low
        };
    }
    graph.same(at, graph.constant(true))
}

/// A Boolean under the level of its variable.
fn side_under(unknown: bool, side: Side, level: Level) -> bool
    ensures { result ≡ under unknown side level }
{
    match (side, level) {
        (Side::Pure | Side::High, Level::One) | (Side::Low, Level::Zero) => true,
        (Side::Pure | Side::High, Level::Zero) | (Side::Low, Level::One) => false,
        (_, Level::X | Level::Z) => unknown,
    }
}
