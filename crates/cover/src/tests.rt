use crate::cover;
use bdd::Graph;
use primes::PrimeError;
use std::test::Fail;

#[test]
fn cover_of_a_choice(rt: HostRuntime) -> Result<(), Fail> {
    let mut graph = Graph::new(rt.alloc(), 3)?;
    let a = graph.var(0)?;
    let b = graph.var(1)?;
    let c = graph.var(2)?;
    let f = graph.ite(a, b, c)?;
    let terms = cover(rt.alloc(), &mut graph, f, 4096)?;
    assert_eq!(rt; terms.len(), 2);
    assert_eq!(rt; terms[0].items(), [(0, true), (1, true)].as_slice());
    assert_eq!(rt; terms[1].items(), [(0, false), (2, true)].as_slice());
    Ok(())
}

/// A variable that may float has a Boolean for its true and one for its complement literal, which nothing joins.
#[test]
fn cover_over_two_rails(rt: HostRuntime) -> Result<(), Fail> {
    let mut graph = Graph::new(rt.alloc(), 3)?;
    let a = graph.var(0)?;
    let not_a = graph.var(1)?;
    let b = graph.var(2)?;
    let either = graph.or(a, not_a)?;
    let f = graph.and(either, b)?;
    let terms = cover(rt.alloc(), &mut graph, f, 4096)?;
    assert_eq!(rt; terms.len(), 2);
    assert_eq!(rt; terms[0].items(), [(0, true), (2, true)].as_slice());
    assert_eq!(rt; terms[1].items(), [(1, true), (2, true)].as_slice());
    Ok(())
}

#[test]
fn covers_of_constants(rt: HostRuntime) -> Result<(), Fail> {
    let mut graph = Graph::new(rt.alloc(), 2)?;
    let zero = graph.constant(false);
    let none = cover(rt.alloc(), &mut graph, zero, 0)?;
    assert!(rt; none.is_empty());
    let one = graph.constant(true);
    let refusal = cover(rt.alloc(), &mut graph, one, 0).err();
    assert_eq!(rt; refusal, Some(PrimeError::Over { most: 0 }));
    let terms = cover(rt.alloc(), &mut graph, one, 1)?;
    assert_eq!(rt; terms.len(), 1);
    assert!(rt; terms[0].items().is_empty());
    Ok(())
}
