//! Levels as variables of a graph, in the order 0, 1, X, Z.
#![tactic(auto)]

ghost use Rattle.std.specs.Prelude.{ℕ, ◌≡◌, ◌<◌, ◌+◌, ◌++◌, List, [], length, IfOk, true, false};
ghost use Rattle.bdd.specs.Tree.{Point};
ghost use Rattle.bdd.specs.Diagram.{IsCanonical, IsEarlier, Keeps, point_of};
ghost use Rattle.mig_base.specs.declared.levels.Level.{Level as LevelOf};
ghost use Rattle.reckoning.specs.Triples.{IsTriple, Says};
ghost use Rattle.leaves.specs.Orders.{AreBefore};
ghost use Rattle.leaves.specs.Spread.{AreTied, leader_levels};
ghost use Rattle.leaves.specs.Leaves.{AllFit, leaf_level, leaf_levels, leaves_from, point_of_levels, bit, level_or_z};
ghost use Rattle.leaves.specs.declared.Range.{Range as RangeOf};

use bdd::{Graph, NoNode};
use reckoning::Three;

/// Which levels a leaf may have: 0 and 1, and besides X or Z.
#[derive(Clone, Copy, PartialEq, Eq)]
pub enum Range {
    Bit,
    OrX,
    OrZ,
}

/// A level as one or two variables from a place on.
#[derive(Clone, Copy)]
pub struct Leaf {
    pub place: u32,
    pub range: Range,
}

/// Each list of levels that fit is that of some point.
pub fn levels_have_points()
    ensures { (rs : List RangeOf) (levels : List LevelOf) → AllFit rs levels → leaf_levels (point_of (point_of_levels rs levels)) (leaves_from 0 rs) ≡ levels }
{}

/// A lower list of levels has an earlier point.
pub fn lower_levels_are_earlier()
    ensures { (rs : List RangeOf) (levels : List LevelOf) (p : Point) (n : ℕ) → AllFit rs levels → AreBefore levels (leaf_levels p (leaves_from 0 rs)) →
        length (point_of_levels rs levels) ≡ n → IsEarlier n (point_of (point_of_levels rs levels)) p }
{}

/// A lower pair has lower levels of classes.
pub fn lower_pairs_have_lower_classes()
    ensures { (classes : List ℕ) (xs ys rest_x rest_y : List LevelOf) → AreTied [] classes xs → AreTied [] classes ys → AreBefore (xs ++ rest_x) (ys ++ rest_y) →
        AreBefore (leader_levels 0 classes xs ++ rest_x) (leader_levels 0 classes ys ++ rest_y) }
{}

/// The triple of a level of one variable. Only want of memory refuses it.
pub fn two_valued(graph: &mut Graph, place: u32) -> Result<Three, NoNode>
    requires { place < graph.old.vars }
    ensures keeps { Keeps graph.old graph.new }
    ensures canonical { IsCanonical graph.new }
    ensures valid { IfOk result (IsTriple graph.new) }
    ensures says { IfOk result (λ t. (p : Point) → Says graph.new t p (bit (p place))) }
{
    let one = graph.var(place)?;
    let zero = graph.not(one)?;
    let float = graph.constant(false);
    Ok(Three { one, zero, float })
}

/// The triple of a level of two variables, where the third level is Z. Only want of memory refuses it.
pub fn three_valued(graph: &mut Graph, place: u32) -> Result<Three, NoNode>
    requires { place + 1 < graph.old.vars }
    ensures keeps { Keeps graph.old graph.new }
    ensures canonical { IsCanonical graph.new }
    ensures valid { IfOk result (IsTriple graph.new) }
    ensures says { IfOk result (λ t. (p : Point) → Says graph.new t p (level_or_z (p place) (p (place + 1)))) }
{
    let _count = graph.vars();
    let float = graph.var(place)?;
    let driven = graph.not(float)?;
    let high = graph.var(place + 1)?;
    let low = graph.not(high)?;
    let one = graph.and(driven, high)?;
    let zero = graph.and(driven, low)?;
    Ok(Three { one, zero, float })
}
