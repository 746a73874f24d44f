//! The least point where a function holds.
ghost use Rattle.std.specs.Prelude.{◌≡◌, ◌↔◌, IsNone, IfOk, IfSome};
ghost use Rattle.bdd.specs.Diagram.{IsValid, IsCanonical, HoldsNowhere, IsLeastPoint};

use crate::{Expansion, Graph, NoNode, Ref};

impl Graph {
    /// The least point where `f` holds, with false before true and variable 0 first. None where `f` holds nowhere.
    pub fn some_point(&self, f: Ref) -> Result<Option<Vec<bool>>, NoNode>
        requires { IsValid self.now f }
        ensures none { IfOk result (λ point. IsNone point ↔ HoldsNowhere self.now f) }
        ensures least { IfOk result (λ point. IfSome point (λ xs. IsLeastPoint self.now f xs.items)) }
        ensures canonical { IsCanonical self.now }
    {
        let zero = self.constant(false);
        if f == zero {
            return Ok(None);
        }
        let alloc = *self.nodes.allocator();
        let mut point = vec![in alloc; false; self.vars as usize]?;
        let mut at = f;
        while let Expansion::Decision(node) = self.expansion(at) {
            if node.low == zero {
                point[node.var as usize] = true;
                at = node.high;
            } else {
                at = node.low;
            }
        }
        Ok(Some(point))
    }
}
