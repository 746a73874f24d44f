ghost use Rattle.std.specs.Prelude.{◌≡◌, ◌<◌, IfOk};
ghost use Rattle.bdd.specs.Diagram.{IsValid, Keeps};

use crate::{Graph, NoNode, Ref};
use std::test::Fail;

#[test]
fn a_negation_shares_its_node(rt: HostRuntime) -> Result<(), Fail> {
    let mut graph = Graph::new(rt.alloc(), 3)?;
    assert_eq!(rt; graph.nodes(), 1);
    let a = graph.var(0)?;
    assert_eq!(rt; graph.nodes(), 2);
    graph.not(a)?;
    assert_eq!(rt; graph.nodes(), 2);
    graph.compact(&mut [])?;
    assert_eq!(rt; graph.nodes(), 1);
    Ok(())
}

#[test]
fn a_choice_is_made_once(rt: HostRuntime) -> Result<(), Fail> {
    let mut graph = Graph::new(rt.alloc(), 3)?;
    assert_eq!(rt; graph.vars(), 3);
    let b = graph.var(1)?;
    let (v, low, high) = graph.split(b).ok_or("a choice")?;
    assert_eq!(rt; v, 1);
    assert!(rt; low == graph.constant(false));
    assert!(rt; high == graph.constant(true));
    let again = graph.mk(v, low, high)?;
    assert!(rt; again == b);
    assert_eq!(rt; graph.nodes(), 2);
    Ok(())
}

#[test]
fn the_least_point_of_a_product(rt: HostRuntime) -> Result<(), Fail> {
    let mut graph = Graph::new(rt.alloc(), 3)?;
    let b = graph.var(1)?;
    let not_b = graph.not(b)?;
    let a = graph.var(0)?;
    let product = graph.and(a, not_b)?;
    let point = graph.some_point(product)?.ok_or("a point")?;
    assert_eq!(rt; point.as_slice(), [true, false, false].as_slice());
    Ok(())
}

#[test]
fn both_sides_of_a_choice(rt: HostRuntime) -> Result<(), Fail> {
    let mut graph = Graph::new(rt.alloc(), 3)?;
    let a = graph.var(0)?;
    let b = graph.var(1)?;
    let not_a = graph.not(a)?;
    let with_a = graph.and(a, b)?;
    let without_a = graph.and(not_a, b)?;
    let sum = graph.or(with_a, without_a)?;
    assert!(rt; sum == b);
    Ok(())
}

#[test]
fn compaction_keeps_a_root(rt: HostRuntime) -> Result<(), Fail> {
    let mut graph = Graph::new(rt.alloc(), 1)?;
    let a = graph.var(0)?;
    let not_a = graph.not(a)?;
    let never = graph.and(a, not_a)?;
    assert!(rt; never == graph.constant(false));
    assert!(rt; !graph.same(never, a));
    assert!(rt; graph.some_point(never)?.is_none());
    let mut roots = [a];
    graph.compact(&mut roots)?;
    assert!(rt; graph.eval(roots[0], &[true]));
    assert!(rt; !graph.eval(roots[0], &[false]));
    Ok(())
}

const PARITY: u32 = 40;

/// The parity of 40 variables, taken up in rising or in falling order.
fn parity(graph: &mut Graph, is_rising: bool) -> Result<Ref, NoNode>
    requires { graph.old.vars ≡ PARITY }
    ensures keeps { Keeps graph.old graph.new }
    ensures valid { IfOk result (IsValid graph.new) }
{
    let mut f = graph.constant(false);
    for i in 0..PARITY {
        let v = if is_rising { i } else { PARITY - 1 - i };
        f = differing(graph, v, f)?;
    }
    Ok(f)
}

/// Whether the variable `v` and `f` differ.
fn differing(graph: &mut Graph, v: u32, f: Ref) -> Result<Ref, NoNode>
    requires var { v < graph.old.vars }
    requires valid { IsValid graph.old f }
    ensures keeps { Keeps graph.old graph.new }
    ensures valid { IfOk result (IsValid graph.new) }
{
    let x = graph.var(v)?;
    let not_f = graph.not(f)?;
    graph.ite(x, not_f, f)
}

#[test]
fn one_parity_in_both_orders(rt: HostRuntime) -> Result<(), Fail> {
    let mut graph = Graph::new(rt.alloc(), PARITY)?;
    let rising = match parity(&mut graph, true) {
        Ok(f) => f,
        Err(NoNode) => parity(&mut graph, true)?,
    };
    let falling = match parity(&mut graph, false) {
        Ok(f) => f,
        Err(NoNode) => parity(&mut graph, false)?,
    };
    assert!(rt; rising == falling);
    Ok(())
}
