//! Whether two registers are alike, by their signs.
ghost use Rattle.std.specs.Prelude.{◌≡◌, ◌&&◌, ◌↔◌, IsTrue};
ghost use Rattle.bdd.specs.Diagram.{IsCanonical, IsValid};
ghost use Rattle.matchings.specs.Edges.{same_clock as is_one_clock};
ghost use Rattle.signs.specs.Signs.{AreSameEdges, AreSameSigns, IsSign, Keeps, SameFunctions};

use crate::named::is_same;
use crate::registers::Sign;
use bdd::{Graph, Ref};
use mig_base::Name;

/// Whether two clocks are one.
fn same_clock(a: &Option<Name>, b: &Option<Name>) -> bool
    ensures { result ≡ is_one_clock a.now b.now }
{
    match (a, b) {
        (None, None) => true,
        (Some(a), Some(b)) => is_same(a, b),
        (None, Some(_)) | (Some(_), None) => false,
    }
}

/// Whether both hold.
fn both(a: bool, b: bool) -> bool
    ensures { result ≡ (a && b) }
{
    a && b
}

/// Whether two pairs of functions are the same.
fn same_pairs(graph: &Graph, left: (Ref, Ref), right: (Ref, Ref)) -> bool
    requires left_one { IsValid graph.now left.0 }
    requires left_zero { IsValid graph.now left.1 }
    requires right_one { IsValid graph.now right.0 }
    requires right_zero { IsValid graph.now right.1 }
    ensures same { IsTrue result ↔ (SameFunctions graph.now left.0 right.0 × SameFunctions graph.now left.1 right.1) }
    ensures canonical { IsCanonical graph.now }
{
    let one = graph.same(left.0, right.0);
    let zero = graph.same(left.1, right.1);
    both(one, zero)
}

/// Whether a register takes what it shows wherever its clock may rise.
fn keeps(graph: &Graph, s: &Sign) -> bool
    requires { IsSign graph.now s.now }
    ensures keeps { IsTrue result ↔ Keeps graph.now s.now }
    ensures canonical { IsCanonical graph.now }
{
    same_pairs(graph, (s.edge_one, s.edge_zero), (s.keep_one, s.keep_zero))
}

/// Whether no rise of a clock parts two registers that show the same.
fn same_edges(graph: &Graph, s: &Sign, t: &Sign) -> bool
    requires left { IsSign graph.now s.now }
    requires right { IsSign graph.now t.now }
    ensures edges { IsTrue result ↔ AreSameEdges (is_one_clock s.now.clock t.now.clock) graph.now s.now t.now }
    ensures canonical { IsCanonical graph.now }
{
    if same_clock(&s.clock, &t.clock) {
        return same_pairs(graph, (s.edge_one, s.edge_zero), (t.edge_one, t.edge_zero));
    }
    let left = keeps(graph, s);
    let right = keeps(graph, t);
    both(left, right)
}

/// Whether two registers have the same signs.
pub fn alike(graph: &Graph, s: &Sign, t: &Sign) -> bool
    requires left { IsSign graph.now s.now }
    requires right { IsSign graph.now t.now }
    ensures alike { IsTrue result ↔ AreSameSigns graph.now s.now t.now }
    ensures canonical { IsCanonical graph.now }
{
    let seen = same_pairs(graph, (s.one, s.zero), (t.one, t.zero));
    let edges = same_edges(graph, s, t);
    both(seen, edges)
}
