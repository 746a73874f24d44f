//! Triples of handed levels by the names of their ports.
ghost use Rattle.std.specs.Prelude.{◌≡◌, length, IfOk};
ghost use Rattle.std.specs.List.{AllByRecursion};
ghost use Rattle.std.specs.Str.{bytes_eq};
ghost use Rattle.bdd.specs.Tree.{Point};
ghost use Rattle.bdd.specs.Diagram.{IsCanonical};
ghost use Rattle.mig_base.specs.Among.{Among};
ghost use Rattle.mig_base.specs.Boards.{is_handed as is_handed_port};
ghost use Rattle.level_laws.specs.SameBehaviour.{Handing};
ghost use Rattle.matchings.specs.ByPort.{handed_names as names_of_handed};
ghost use Rattle.reckoning.specs.Triples.{AreTriples, IsTriple, Says};
ghost use Rattle.signs.specs.Named.{AreNamedFrom, NamedSay};

use bdd::{Graph, NoNode};
use mig_base::{Name, Net, Port};
use reckoning::Three;
use std::alloc::Global;

/// Whether a port of this direction is handed a level.
fn is_handed(port: Port) -> bool
    ensures { result ≡ is_handed_port port }
{
    match port {
        Port::Input | Port::Both => true,
        Port::Inner | Port::Output => false,
    }
}

/// The names of the Input and Both ports, in board order.
pub(crate) fn handed_names(alloc: Global, net: &Net) -> Result<Vec<Name>, NoNode>
    ensures { IfOk result (λ names. names.items ≡ names_of_handed net.now) }
{
    let nets = net.nets.items();
    let names = nets
        .iter()
        .filter(|l| is_handed(l.port))
        .map(|l| l.name)
        .collect(alloc)?;
    Ok(names)
}

/// Whether two names are one.
pub(crate) fn is_same(a: &Name, b: &Name) -> bool
    ensures { result ≡ bytes_eq a.now b.now }
{
    a.bytes() == b.bytes()
}

/// The triple of the port of this name, by the names of all ports.
pub(crate) fn named_triple(graph: &Graph, names: &[Name], ports: &[Three], name: &Name) -> Three
    requires known { Among name.now names.now }
    requires count { length ports.now ≡ length names.now }
    requires triples { AreTriples graph.now ports.now }
    ensures triple { IsTriple graph.now result }
    ensures says { (p : Point) (h : Handing) → NamedSay graph.now ports.now names.now p h → Says graph.now result p (h name.now) }
    ensures canonical { IsCanonical graph.now }
{
    let never = graph.constant(false);
    for (k, other) in names.iter().enumerate() {
        if is_same(name, other) {
            return ports[k];
        }
    }
    Three {
        one: never,
        zero: never,
        float: never,
    }
}

/// The triples of the ports of other names, in their order.
pub(crate) fn named_triples(
    alloc: Global,
    graph: &Graph,
    names: &[Name],
    ports: &[Three],
    others: &[Name],
) -> Result<Vec<Three>, NoNode>
    requires known { AllByRecursion (λ name. Among name names.now) others.now }
    requires count { length ports.now ≡ length names.now }
    requires triples { AreTriples graph.now ports.now }
    ensures named { IfOk result (λ made. AreNamedFrom graph.now names.now ports.now others.now made.items) }
    ensures canonical { IsCanonical graph.now }
{
    let _count = graph.vars();
    let mut made = Vec::new(alloc);
    for other in others {
        made.push(named_triple(graph, names, ports, other))?;
    }
    Ok(made)
}
