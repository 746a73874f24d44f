ghost use Rattle.std.specs.Prelude.{◌≡◌, ◌<◌, ◌≤◌, ◌+◌, IfOk, length};
ghost use Rattle.bdd.specs.Tree.{Point};
ghost use Rattle.bdd.specs.Diagram.{IsCanonical, Keeps, point_of};
ghost use Rattle.leaves.specs.declared.Range.TheVariants.{OrX};
ghost use Rattle.leaves.specs.Leaves.{bit as level_of_bit, level_by, leaf_level, leaf_levels, width};
ghost use Rattle.reckoning.specs.Triples.{IsTriple, Says};
ghost use Rattle.class_leaves.specs.LeafTriples.{AreLeafTriples};
ghost use Rattle.class_leaves.specs.PairsAt.{AreWithin};

use bdd::{Graph, NoNode};
use leaves::{Leaf, Range, three_valued, two_valued};
use mig_base::Level;
use reckoning::Three;
use std::alloc::Global;

/// The triple of a leaf.
fn leaf_triple(graph: &mut Graph, leaf: Leaf) -> Result<Three, NoNode>
    requires { leaf.place + width leaf.range ≤ graph.old.vars }
    ensures keeps { Keeps graph.old graph.new }
    ensures canonical { IsCanonical graph.new }
    ensures valid { IfOk result (IsTriple graph.new) }
    ensures says { IfOk result (λ t. (p : Point) → Says graph.new t p (leaf_level leaf p)) }
{
    match leaf.range {
        Range::Bit => two_valued(graph, leaf.place),
        Range::OrZ => three_valued(graph, leaf.place),
        Range::OrX => never_floating(graph, leaf.place),
    }
}

/// The triple of a level of two variables, where the third level is X.
fn never_floating(graph: &mut Graph, place: u32) -> Result<Three, NoNode>
    requires { place + 1 < graph.old.vars }
    ensures keeps { Keeps graph.old graph.new }
    ensures canonical { IsCanonical graph.new }
    ensures valid { IfOk result (IsTriple graph.new) }
    ensures says { IfOk result (λ t. (p : Point) → Says graph.new t p (level_by OrX (p place) (p (place + 1)))) }
{
    let three = three_valued(graph, place)?;
    let float = graph.constant(false);
    Ok(Three {
        one: three.one,
        zero: three.zero,
        float,
    })
}

/// The triples of leaves.
pub fn leaf_triples(alloc: Global, graph: &mut Graph, leaves: &[Leaf]) -> Result<Vec<Three>, NoNode>
    requires { AreWithin graph.old.vars leaves.now }
    ensures keeps { Keeps graph.old graph.new }
    ensures canonical { IsCanonical graph.new }
    ensures triples { IfOk result (λ made. AreLeafTriples graph.new leaves.now made.items) }
{
    let _count = graph.vars();
    let mut made = Vec::new(alloc);
    for leaf in leaves {
        let three = leaf_triple(graph, *leaf)?;
        made.push(three)?;
    }
    Ok(made)
}

/// 1 where true and else 0.
fn level_of(bit: bool) -> Level
    ensures { result ≡ level_of_bit bit }
{
    if bit { Level::One } else { Level::Zero }
}

/// What a leaf reads at a point.
fn level_at(leaf: Leaf, point: &[bool]) -> Level
    requires { leaf.place + width leaf.range ≤ length point.now }
    ensures { result ≡ leaf_level leaf (point_of point.now) }
{
    let place = leaf.place as usize;
    match leaf.range {
        Range::Bit => level_of(point[place]),
        Range::OrX => if point[place] {
            Level::X
        } else {
            level_of(point[place + 1])
        },
        Range::OrZ => if point[place] {
            Level::Z
        } else {
            level_of(point[place + 1])
        },
    }
}

/// What leaves read at a point.
pub fn levels_at(alloc: Global, leaves: &[Leaf], point: &[bool]) -> Result<Vec<Level>, NoNode>
    requires { AreWithin (length point.now) leaves.now }
    ensures { IfOk result (λ levels. levels.items ≡ leaf_levels (point_of point.now) leaves.now) }
{
    let mut levels = Vec::new(alloc);
    for leaf in leaves {
        levels.push(level_at(*leaf, point))?;
    }
    Ok(levels)
}
