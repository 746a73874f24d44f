//! Boolean functions of numbered variables as reduced ordered binary decision diagrams (Bryant 1986): hash-consed
//! nodes, and complement edges (Brace, Rudell and Bryant 1990), so that a function and its negation share a node.
#![tactic(auto)]

ghost use Rattle.std.specs.Prelude.{◌≡◌, ◌≢◌, ℕ, ◌+◌, ◌<◌, ◌≤◌, ◌↔◌, Bool, true, false, [], ◌∷◌, length, IfOk, IsTrue};
ghost use Rattle.bdd.specs.Tree.{Leaf, IsFrom};
ghost use Rattle.bdd.specs.Diagram.{is_marked, IsValid, tree, function_of, IsCanonical, Keeps, IsConstant, IsVariable, AddsOnly, IsChoice, IsSplit, point_of};
ghost use Rattle.bdd.specs.Steps.{IsExpansion};

mod compact;
mod least_point;
mod marks;
mod operations;
#[cfg(test)]
mod tests;

use indexmap::IndexSet;
use std::alloc::{AllocError, AllocFailed, Global};
use std::collections::HashMap;
use std::error::Error;
use std::fmt;
use std::marker::Model;

/// A function of one graph: the place of a node, and a mark where it is the negation of the node's function.
#[derive(Clone, Copy, PartialEq, Eq, Hash)]
pub struct Ref(u64);

/// There is no memory for another node, or for what a call keeps aside.
#[derive(Clone, Copy, PartialEq, Eq, Debug)]
pub struct NoNode;

impl fmt::Display for NoNode {
    fn fmt<W: fmt::Write>(&self, f: &mut fmt::Formatter<W>) -> fmt::Result {
        write!(f, "no memory for another node")
    }
}

impl Error for NoNode {}

impl From<AllocError> for NoNode {
    fn from(_error: AllocError) -> NoNode {
        NoNode
    }
}

impl<T: Drop> From<AllocFailed<T>> for NoNode {
    fn from(_error: AllocFailed<T>) -> NoNode {
        NoNode
    }
}

/// A choice by a variable between a function where it is false and one where it is true.
#[derive(Clone, Copy, PartialEq, Eq, Hash)]
struct Node {
    var: u32,
    low: Ref,
    high: Ref,
}

/// What stands at a place of the node table: the constant 1, or a choice whose high edge is not marked.
#[derive(Clone, Copy, PartialEq, Eq, Hash)]
enum Entry {
    One,
    Decision(Node),
}

/// A function as a constant, or as a choice by its first variable.
#[derive(Clone, Copy)]
enum Expansion {
    Constant(bool),
    Decision(Node),
}

/// The operands of an `ite`.
#[derive(Clone, Copy, PartialEq, Eq, Hash)]
struct Operands {
    f: Ref,
    g: Ref,
    h: Ref,
}

/// Shared diagrams of functions over a number of variables. Each function has one `Ref`.
///
/// A `Ref` is for the graph that made it: where a call takes one, it is valid in this graph. Every call but a
/// `compact` that succeeds leaves earlier refs valid with their functions, also where memory runs out. The error of a
/// call is always want of memory, and the same call may be tried again.
#[derive(Drop)]
pub struct Graph {
    vars: u32,
    nodes: IndexSet<Entry>,
    memo: HashMap<Operands, Ref>,
}

impl Model for Graph {
    ghost use Rattle.bdd.specs.Diagram.{Diagram, diagram_code};

    ghost Value = { Diagram };

    ghost coded = { diagram_code };

    ghost use Rattle.bdd.specs.Graph.{seen, IsGraph};

    ghost view = { seen };

    ghost invariant = { IsGraph };
}

impl Graph {
    /// The graph of the constants alone, over `vars` variables.
    pub fn new(alloc: Global, vars: u32) -> Result<Graph, NoNode>
        ensures vars { IfOk result (λ graph. graph.vars ≡ vars) }
        ensures nodes { IfOk result (λ graph. graph.trees ≡ Leaf true ∷ []) }
        ensures canonical { IfOk result IsCanonical }
    {
        let mut nodes = IndexSet::new(alloc);
        nodes.insert(Entry::One)?;
        let memo = HashMap::new(alloc);
        Ok(Graph { vars, nodes, memo })
    }

    /// The number of variables.
    pub fn vars(&self) -> u32
        ensures vars { result ≡ self.now.vars }
        ensures canonical { IsCanonical self.now }
    {
        self.vars
    }

    /// The number of nodes, the constant among them.
    pub fn nodes(&self) -> u64
        ensures nodes { result ≡ length self.now.trees }
        ensures canonical { IsCanonical self.now }
    {
        self.nodes.len() as u64
    }

    /// The constant 1 or 0.
    pub fn constant(&self, one: bool) -> Ref
        ensures constant { IsConstant self.now one result }
        ensures canonical { IsCanonical self.now }
    {
        let _ = &self.nodes;
        Ref(0).with_mark(!one)
    }

    /// The function of the variable `v`.
    pub fn var(&mut self, v: u32) -> Result<Ref, NoNode>
        requires { v < self.old.vars }
        ensures keeps { Keeps self.old self.new }
        ensures canonical { IsCanonical self.new }
        ensures variable { IfOk result (IsVariable self.new v) }
        ensures grows { length self.new.trees ≤ length self.old.trees + 1 }
    {
        let zero = self.constant(false);
        let one = self.constant(true);
        self.mk(v, zero, one)
    }

    /// The choice by `v` between two functions of later variables.
    pub fn mk(&mut self, v: u32, low: Ref, high: Ref) -> Result<Ref, NoNode>
        requires var { v < self.old.vars }
        requires low_valid { IsValid self.old low }
        requires high_valid { IsValid self.old high }
        requires low_from { IsFrom (v + 1) (tree self.old low) }
        requires high_from { IsFrom (v + 1) (tree self.old high) }
        ensures keeps { Keeps self.old self.new }
        ensures canonical { IsCanonical self.new }
        ensures choice { IfOk result (IsChoice self.old self.new v low high) }
        ensures adds { IfOk result (AddsOnly self.old self.new) }
        ensures grows { length self.new.trees ≤ length self.old.trees + 1 }
    {
        if low == high {
            let _ = &self.nodes;
            return Ok(low);
        }
        let mark = high.has_mark();
        let node = Node {
            var: v,
            low: low.with_mark(mark),
            high: high.with_mark(mark),
        };
        let r = self.put(node)?;
        Ok(r.with_mark(mark))
    }

    /// The node's place, where it stands already or from now on.
    fn put(&mut self, node: Node) -> Result<Ref, NoNode>
        requires var { node.var < self.old.vars }
        requires low_valid { IsValid self.old node.low }
        requires high_valid { IsValid self.old node.high }
        requires low_from { IsFrom (node.var + 1) (tree self.old node.low) }
        requires high_from { IsFrom (node.var + 1) (tree self.old node.high) }
        requires differ { node.low ≢ node.high }
        requires high_unmarked { is_marked node.high ≡ false }
        ensures keeps { Keeps self.old self.new }
        ensures canonical { IsCanonical self.new }
        ensures choice { IfOk result (IsChoice self.old self.new node.var node.low node.high) }
        ensures adds { IfOk result (AddsOnly self.old self.new) }
        ensures grows { length self.new.trees ≤ length self.old.trees + 1 }
    {
        let (index, _) = self.nodes.insert_full(Entry::Decision(node))?;
        Ref::unmarked(index)
    }

    /// The only reader of the node table: it carries the mark of `f` to both edges.
    fn expansion(&self, f: Ref) -> Expansion
        requires { IsValid self.now f }
        ensures expansion { IsExpansion self.now f result }
        ensures canonical { IsCanonical self.now }
    {
        let mark = f.has_mark();
        match self.nodes.get_index(f.index()) {
            Some(Entry::One) => Expansion::Constant(!mark),
            Some(Entry::Decision(node)) => Expansion::Decision(Node {
                var: node.var,
                low: node.low.with_mark(mark),
                high: node.high.with_mark(mark),
            }),
            None => unreachable!(),
        }
    }

    /// The first variable that `f` depends on, with `f` where it is false and `f` where it is true. None for a constant.
    pub fn split(&self, f: Ref) -> Option<(u32, Ref, Ref)>
        requires { IsValid self.now f }
        ensures split { IsSplit self.now f result }
        ensures canonical { IsCanonical self.now }
    {
        match self.expansion(f) {
            Expansion::Constant(_) => None,
            Expansion::Decision(node) => Some((node.var, node.low, node.high)),
        }
    }

    /// Whether two functions are equal at every point.
    pub fn same(&self, f: Ref, g: Ref) -> bool
        requires f_valid { IsValid self.now f }
        requires g_valid { IsValid self.now g }
        ensures same { IsTrue result ↔ ((p : ℕ → Bool) → function_of self.now f p ≡ function_of self.now g p) }
        ensures canonical { IsCanonical self.now }
    {
        let _ = &self.nodes;
        f == g
    }

    /// The value of `f` at a point, given as the value of each variable.
    pub fn eval(&self, f: Ref, point: &[bool]) -> bool
        requires valid { IsValid self.now f }
        requires point { length point.now ≡ self.now.vars }
        ensures value { result ≡ function_of self.now f (point_of point.now) }
        ensures canonical { IsCanonical self.now }
    {
        let mut at = f;
        loop {
            match self.expansion(at) {
                Expansion::Constant(value) => return value,
                Expansion::Decision(node) => {
                    at = if point[node.var as usize] {
                        node.high
                    } else {
                        node.low
                    };
                }
            }
        }
    }
}
