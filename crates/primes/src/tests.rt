ghost use Rattle.std.specs.Prelude.{◌≡◌, ◌≤◌, IfOk};
ghost use Rattle.bdd.specs.Diagram.{IsValid, Keeps};

use crate::{PrimeError, primes};
use bdd::{Graph, NoNode, Ref};
use std::test::Fail;

#[test]
fn primes_of_a_choice(rt: HostRuntime) -> Result<(), Fail> {
    let mut graph = Graph::new(rt.alloc(), 3)?;
    let a = graph.var(0)?;
    let b = graph.var(1)?;
    let c = graph.var(2)?;
    let f = graph.ite(a, b, c)?;
    let terms = primes(rt.alloc(), &mut graph, f, 3)?;
    assert_eq!(rt; terms.len(), 3);
    assert_eq!(rt; terms[0].items(), [(0, true), (1, true)].as_slice());
    assert_eq!(rt; terms[1].items(), [(0, false), (2, true)].as_slice());
    assert_eq!(rt; terms[2].items(), [(1, true), (2, true)].as_slice());
    Ok(())
}

#[test]
fn one_prime_too_many(rt: HostRuntime) -> Result<(), Fail> {
    let mut graph = Graph::new(rt.alloc(), 3)?;
    let a = graph.var(0)?;
    let b = graph.var(1)?;
    let f = graph.or(a, b)?;
    let refusal = primes(rt.alloc(), &mut graph, f, 1).err();
    assert_eq!(rt; refusal, Some(PrimeError::Over { most: 1 }));
    Ok(())
}

#[test]
fn primes_of_constants(rt: HostRuntime) -> Result<(), Fail> {
    let mut graph = Graph::new(rt.alloc(), 2)?;
    let zero = graph.constant(false);
    let none = primes(rt.alloc(), &mut graph, zero, 0)?;
    assert!(rt; none.is_empty());
    let one = graph.constant(true);
    let refusal = primes(rt.alloc(), &mut graph, one, 0).err();
    assert_eq!(rt; refusal, Some(PrimeError::Over { most: 0 }));
    let terms = primes(rt.alloc(), &mut graph, one, 1)?;
    assert_eq!(rt; terms.len(), 1);
    assert!(rt; terms[0].items().is_empty());
    Ok(())
}

/// The parity of all variables.
fn parity(graph: &mut Graph, count: u32) -> Result<Ref, NoNode>
    requires { count ≤ graph.old.vars }
    ensures valid { IfOk result (IsValid graph.new) }
{
    let mut f = graph.constant(false);
    for v in 0..count {
        let x = graph.var(v)?;
        let not_f = graph.not(f)?;
        f = graph.ite(x, not_f, f)?;
    }
    Ok(f)
}

#[test]
fn primes_of_a_parity(rt: HostRuntime) -> Result<(), Fail> {
    let mut graph = Graph::new(rt.alloc(), 13)?;
    let f = parity(&mut graph, 13)?;
    let terms = primes(rt.alloc(), &mut graph, f, 4096)?;
    assert_eq!(rt; terms.len(), 4096);
    Ok(())
}

#[test]
fn too_many_primes_of_a_parity(rt: HostRuntime) -> Result<(), Fail> {
    let mut graph = Graph::new(rt.alloc(), 14)?;
    let f = parity(&mut graph, 14)?;
    let refusal = primes(rt.alloc(), &mut graph, f, 4096).err();
    assert_eq!(rt; refusal, Some(PrimeError::Over { most: 4096 }));
    Ok(())
}

/// The sum of the products of each even variable and the next.
fn pairs(graph: &mut Graph) -> Result<Ref, NoNode>
    requires { graph.old.vars ≡ 64 }
    ensures valid { IfOk result (IsValid graph.new) }
{
    let mut f = graph.constant(false);
    for i in 0..32u32 {
        let x = graph.var(2 * i)?;
        let y = graph.var(2 * i + 1)?;
        let pair = graph.and(x, y)?;
        f = graph.or(f, pair)?;
    }
    Ok(f)
}

#[test]
fn primes_of_many_variables(rt: HostRuntime) -> Result<(), Fail> {
    let mut graph = Graph::new(rt.alloc(), 64)?;
    let f = pairs(&mut graph)?;
    let terms = primes(rt.alloc(), &mut graph, f, 32)?;
    assert_eq!(rt; terms.len(), 32);
    assert_eq!(rt; terms[0].items(), [(0, true), (1, true)].as_slice());
    assert_eq!(rt; terms[31].items(), [(62, true), (63, true)].as_slice());
    Ok(())
}

#[test]
fn printed_errors(rt: HostRuntime) -> Result<(), Fail> {
    let over = PrimeError::Over { most: 4096 };
    let over = format!(in rt.alloc(); "{over}")?;
    assert_eq!(rt; over.as_str(), "more than 4096 primes");
    let memory = format!(in rt.alloc(); "{}", PrimeError::Memory)?;
    assert_eq!(rt; memory.as_str(), "no memory");
    Ok(())
}
