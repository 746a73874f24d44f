//! Compaction: a graph built anew from the functions that are still wanted.
ghost use Rattle.std.specs.Prelude.{◌≡◌, All, IfOk, OnOk, OnErr};
ghost use Rattle.bdd.specs.Diagram.{IsValid, tree, IsCanonical, Keeps, IsCopy, AreMoved, HoldsOnly};

use crate::{Expansion, Graph, NoNode, Ref};
use std::collections::HashMap;

impl Graph {
    ghost use Rattle.bdd.specs.Moves.{IsMoves, AddsParts};

    /// Gives up all nodes but those that the roots need. The roots then mean what they meant, in the same order, and
    /// other refs are no longer valid. After an error all is as before.
    pub fn compact(&mut self, roots: &mut [Ref]) -> Result<(), NoNode>
        requires { All (IsValid self.old) roots.old }
        ensures vars { self.new.vars ≡ self.old.vars }
        ensures canonical { IsCanonical self.new }
        ensures moved { OnOk result (AreMoved self.old self.new roots.old roots.new) }
        ensures dropped { OnOk result (HoldsOnly self.new roots.new) }
        ensures graph_stays { OnErr result (self.new ≡ self.old) }
        ensures roots_stay { OnErr result (roots.new ≡ roots.old) }
    {
        let alloc = *self.nodes.allocator();
        let mut fresh = Graph::new(alloc, self.vars)?;
        let mut moves = HashMap::new(alloc);
        let mut copies = Vec::new(alloc);
        for root in roots.iter() {
            let r = self.copy(&mut fresh, *root, &mut moves)?;
            copies.push(r)?;
        }
        roots.copy_from_slice(copies.as_slice());
        *self = fresh;
        Ok(())
    }

    /// Builds `f` in another graph, with the copies made so far in `moves`.
    fn copy(&self, fresh: &mut Graph, f: Ref, moves: &mut HashMap<Ref, Ref>) -> Result<Ref, NoNode>
        requires valid { IsValid self.now f }
        requires vars { fresh.old.vars ≡ self.now.vars }
        requires moves { IsMoves self.now fresh.old moves.old }
        ensures keeps { Keeps fresh.old fresh.new }
        ensures canonical { IsCanonical fresh.new }
        ensures moves { IsMoves self.now fresh.new moves.new }
        ensures copy { IfOk result (IsCopy self.now fresh.new f) }
        ensures adds { OnOk result (AddsParts fresh.old fresh.new (tree self.now f)) }
    {
        let _count = fresh.nodes();
        let expansion = self.expansion(f);
        if let Some(r) = moves.get(&f) {
            return Ok(*r);
        }
        match expansion {
            Expansion::Constant(value) => Ok(fresh.constant(value)),
            Expansion::Decision(node) => {
                let low = self.copy(fresh, node.low, moves)?;
                let high = self.copy(fresh, node.high, moves)?;
                let r = fresh.mk(node.var, low, high)?;
                moves.insert(f, r)?;
                Ok(r)
            }
        }
    }
}
