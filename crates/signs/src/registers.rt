//! The signs of the registers of two boards.
ghost use Rattle.std.specs.Prelude.{ℕ, ◌≡◌, Bool, List, Some, false, length, IfOk, IfSome};
ghost use Rattle.std.specs.List.{AllByRecursion};
ghost use Rattle.bdd.specs.Tree.{Point};
ghost use Rattle.bdd.specs.Diagram.{IsCanonical, IsConstant, IsValid, Keeps, function_of};
ghost use Rattle.mig_base.specs.Accepted.{IsAccepted};
ghost use Rattle.mig_base.specs.Among.{Among};
ghost use Rattle.level_laws.specs.SameBehaviour.{Handing, SamePorts};
ghost use Rattle.board.specs.Joined.{equations_of};
ghost use Rattle.matchings.specs.ByPort.{handed_names as names_of_handed};
ghost use Rattle.matchings.specs.Clocks.{clock_name, line_clock};
ghost use Rattle.matchings.specs.Edges.{View};
ghost use Rattle.reckoning.specs.Triples.{AreTriples, IsTriple, Says};
ghost use Rattle.reckoning.specs.Whole.{HasTriples};
ghost use Rattle.class_leaves.specs.PairsAt.{AreLeaves};
ghost use Rattle.signs.specs.Named.{NamedSay};
ghost use Rattle.signs.specs.Both.{IsRoomy};
ghost use Rattle.signs.specs.Signs.{AreSigns, AreSignsOf, AreTold, IsSign, SignSays, waits};

use crate::both::both_triples;
use crate::named::{handed_names, named_triple};
use bdd::{Graph, NoNode, Ref};
use board::Board;
use class_leaves::Leaves;
use mig_base::{Name, Net, NetLine, Port};
use reckoning::{Three, Triples};
use std::alloc::Global;

/// What tells a register from another one in a step: where it shows 1 and 0, the port of its clock, if that isn't a constant,
/// and where that port is 0 and the register takes 1, takes 0, shows 1 and shows 0.
#[derive(Clone, Copy)]
pub struct Sign {
    pub one: Ref,
    pub zero: Ref,
    pub clock: Option<Name>,
    pub edge_one: Ref,
    pub edge_zero: Ref,
    pub keep_one: Ref,
    pub keep_zero: Ref,
}

/// The name of an Input port.
fn input_name(line: &NetLine) -> Option<Name>
    ensures { result ≡ line_clock (Some line.now) }
{
    match line.port {
        Port::Input => Some(line.name),
        Port::Inner | Port::Output | Port::Both => None,
    }
}

/// The name of the Input port that a net is, if it is one.
fn clock_of(net: &Net, clock: u32) -> Option<Name>
    ensures { result ≡ clock_name net.now clock }
{
    if clock < 2 {
        return None;
    }
    let nets = net.nets.items();
    let place = clock as usize - 2;
    if place < nets.len() {
        return input_name(&nets[place]);
    }
    None
}

/// Where the port of a clock is 0, and nowhere for a constant one.
fn low_of(graph: &Graph, names: &[Name], ports: &[Three], clock: &Option<Name>) -> Ref
    requires known { IfSome clock.now (λ name. Among name names.now) }
    requires count { length ports.now ≡ length names.now }
    requires triples { AreTriples graph.now ports.now }
    ensures valid { IsValid graph.now result }
    ensures says { (p : Point) (h : Handing) → NamedSay graph.now ports.now names.now p h → function_of graph.now result p ≡ waits clock.now h }
    ensures canonical { IsCanonical graph.now }
{
    match clock {
        None => graph.constant(false),
        Some(name) => named_triple(graph, names, ports, name).zero,
    }
}

/// The sign of a register, by the triples of what it shows and takes and of the ports of these names.
fn sign_of(
    graph: &mut Graph,
    names: &[Name],
    ports: &[Three],
    visible: Three,
    next: Three,
    clock: Option<Name>,
) -> Result<Sign, NoNode>
    requires known { IfSome clock (λ name. Among name names.now) }
    requires count { length ports.now ≡ length names.now }
    requires triples { AreTriples graph.old ports.now }
    requires visible { IsTriple graph.old visible }
    requires next { IsTriple graph.old next }
    requires visible_known { IsConstant graph.old false visible.float }
    requires next_known { IsConstant graph.old false next.float }
    ensures keeps { Keeps graph.old graph.new }
    ensures canonical { IsCanonical graph.new }
    ensures valid { IfOk result (IsSign graph.new) }
    ensures says { IfOk result (λ s. (p : Point) (h : Handing) (v : View) → NamedSay graph.old ports.now names.now p h → Says graph.old visible p v.seen →
        Says graph.old next p v.taken → clock ≡ v.clock → SignSays graph.new s p h v) }
{
    let low = low_of(graph, names, ports, &clock);
    let edge_one = graph.and(low, next.one)?;
    let edge_zero = graph.and(low, next.zero)?;
    let keep_one = graph.and(low, visible.one)?;
    let keep_zero = graph.and(low, visible.zero)?;
    Ok(Sign {
        one: visible.one,
        zero: visible.zero,
        clock,
        edge_one,
        edge_zero,
        keep_one,
        keep_zero,
    })
}

/// The signs of a board's registers, by the triples of its levels and of the ports of these names.
fn signs_of(
    alloc: Global,
    graph: &mut Graph,
    b: &Board,
    names: &[Name],
    ports: &[Three],
    triples: &Triples,
) -> Result<Vec<Sign>, NoNode>
    requires known { AllByRecursion (λ name. Among name names.now) (names_of_handed b.now.net) }
    requires count { length ports.now ≡ length names.now }
    requires ports { AreTriples graph.old ports.now }
    requires triples { HasTriples graph.old (equations_of b.now) triples.now }
    ensures keeps { Keeps graph.old graph.new }
    ensures canonical { IsCanonical graph.new }
    ensures accepted { IsAccepted (equations_of b.now) }
    ensures signs { IfOk result (λ signs. AreSignsOf graph.old graph.new b.now names.now ports.now triples.now (length (equations_of b.now).registers) signs.items) }
{
    let _count = graph.vars();
    let registers = b.circuit().registers.items();
    let visible = triples.visible.items();
    let next = triples.next.items();
    let net = b.net();
    let mut signs = Vec::new(alloc);
    for (k, register) in registers.iter().enumerate() {
        let clock = clock_of(net, register.clock);
        let sign = sign_of(graph, names, ports, visible[k], next[k], clock)?;
        signs.push(sign)?;
    }
    Ok(signs)
}

/// The signs of the registers of two boards with the same ports, those of the first board before those of the second, over
/// the leaves of a matching. Only want of memory refuses them.
pub fn both_signs(
    alloc: Global,
    graph: &mut Graph,
    a: &Board,
    b: &Board,
    leaves: &Leaves,
) -> Result<Vec<Sign>, NoNode>
    requires same { SamePorts a.now.net b.now.net }
    requires room { IsRoomy a.now b.now graph.old.vars leaves.now }
    ensures keeps { Keeps graph.old graph.new }
    ensures canonical { IsCanonical graph.new }
    ensures signs { IfOk result (λ signs. AreSigns a.now b.now leaves.now graph.new signs.items) }
    ensures told { IfOk result (λ signs. (classes : List ℕ) (bits : List Bool) → AreLeaves a.now b.now classes bits leaves.now → AreTold a.now b.now classes graph.new signs.items) }
{
    let _count = graph.vars();
    let names = handed_names(alloc, a.net())?;
    let triples = both_triples(alloc, graph, a, b, leaves)?;
    let names = names.as_slice();
    let ports = triples.ports.items();
    let mut signs = signs_of(alloc, graph, a, names, ports, &triples.left)?;
    let others = signs_of(alloc, graph, b, names, ports, &triples.right)?;
    signs.extend_from_slice(others.as_slice())?;
    Ok(signs)
}
