//! The Boolean operations, all by one recursion with a memo.
ghost use Rattle.std.specs.Prelude.{◌≡◌, ℕ, ◌+◌, ◌<◌, ◌≤◌, length, IfOk, IfSome, IfNone, IsOkAnd};
ghost use Rattle.bdd.specs.Tree.{IsFrom, first_variable};
ghost use Rattle.bdd.specs.Diagram.{IsValid, tree, IsCanonical, Keeps, IsIte, IsConjunction, IsDisjunction, IsNegation};
ghost use Rattle.bdd.specs.Steps.{AreCofactors, IsTrueMemo};

use crate::{Expansion, Graph, NoNode, Operands, Ref};

impl Graph {
    /// `g` where `f` holds, and `h` where it does not.
    pub fn ite(&mut self, f: Ref, g: Ref, h: Ref) -> Result<Ref, NoNode>
        requires f_valid { IsValid self.old f }
        requires g_valid { IsValid self.old g }
        requires h_valid { IsValid self.old h }
        ensures keeps { Keeps self.old self.new }
        ensures canonical { IsCanonical self.new }
        ensures ite { IfOk result (IsIte self.old self.new f g h) }
    {
        if let Some(r) = self.simple_ite(f, g, h) {
            return Ok(r);
        }
        let operands = Operands { f, g, h };
        if let Some(r) = self.known(operands) {
            return Ok(r);
        }
        let v = self
            .first_variable(f)
            .min(self.first_variable(g))
            .min(self.first_variable(h));
        let (f_low, f_high) = self.cofactors(f, v);
        let (g_low, g_high) = self.cofactors(g, v);
        let (h_low, h_high) = self.cofactors(h, v);
        let low = self.ite(f_low, g_low, h_low)?;
        let high = self.ite(f_high, g_high, h_high)?;
        let r = self.mk(v, low, high)?;
        self.note(operands, r)?;
        Ok(r)
    }

    /// The conjunction.
    pub fn and(&mut self, f: Ref, g: Ref) -> Result<Ref, NoNode>
        requires f_valid { IsValid self.old f }
        requires g_valid { IsValid self.old g }
        ensures keeps { Keeps self.old self.new }
        ensures canonical { IsCanonical self.new }
        ensures conjunction { IfOk result (IsConjunction self.old self.new f g) }
    {
        let zero = self.constant(false);
        self.ite(f, g, zero)
    }

    /// The disjunction.
    pub fn or(&mut self, f: Ref, g: Ref) -> Result<Ref, NoNode>
        requires f_valid { IsValid self.old f }
        requires g_valid { IsValid self.old g }
        ensures keeps { Keeps self.old self.new }
        ensures canonical { IsCanonical self.new }
        ensures disjunction { IfOk result (IsDisjunction self.old self.new f g) }
    {
        let one = self.constant(true);
        self.ite(f, one, g)
    }

    /// The negation, which takes no memory.
    pub fn not(&mut self, f: Ref) -> Result<Ref, NoNode>
        requires { IsValid self.old f }
        ensures negation { IsOkAnd result (IsNegation self.old self.new f) }
        ensures same { self.new ≡ self.old }
        ensures keeps { Keeps self.old self.new }
        ensures canonical { IsCanonical self.new }
    {
        let _ = &self.nodes;
        Ok(f.with_mark(true))
    }

    /// What needs no recursion: `f` is a constant, or `g` and `h` are equal or are the two constants.
    fn simple_ite(&self, f: Ref, g: Ref, h: Ref) -> Option<Ref>
        requires f_valid { IsValid self.now f }
        requires g_valid { IsValid self.now g }
        requires h_valid { IsValid self.now h }
        ensures simple { IfSome result (IsIte self.now self.now f g h) }
        ensures rest { IfNone result (first_variable self.now.vars (tree self.now f) < self.now.vars) }
        ensures canonical { IsCanonical self.now }
    {
        let one = self.constant(true);
        let zero = self.constant(false);
        if f == one {
            Some(g)
        } else if f == zero {
            Some(h)
        } else if g == h {
            Some(g)
        } else if g == one && h == zero {
            Some(f)
        } else if g == zero && h == one {
            Some(f.with_mark(true))
        } else {
            None
        }
    }

    /// The first variable that `f` depends on, or the number of variables where it is constant.
    fn first_variable(&self, f: Ref) -> u32
        requires { IsValid self.now f }
        ensures first { result ≡ first_variable self.now.vars (tree self.now f) }
        ensures within { result ≤ self.now.vars }
    {
        match self.expansion(f) {
            Expansion::Constant(_) => self.vars,
            Expansion::Decision(node) => node.var,
        }
    }

    /// `f` where `v` is false and where `v` is true.
    fn cofactors(&self, f: Ref, v: u32) -> (Ref, Ref)
        requires valid { IsValid self.now f }
        requires from { IsFrom v (tree self.now f) }
        ensures { AreCofactors self.now v f result }
    {
        match self.expansion(f) {
            Expansion::Decision(node) if node.var == v => (node.low, node.high),
            _ => (f, f),
        }
    }

    /// What the memo tells.
    fn known(&self, operands: Operands) -> Option<Ref>
        ensures memo { IfSome result (IsTrueMemo self.now operands) }
        ensures canonical { IsCanonical self.now }
    {
        self.memo.get(&operands).copied()
    }

    /// Keeps a true result in the memo.
    fn note(&mut self, operands: Operands, r: Ref) -> Result<(), NoNode>
        requires { IsTrueMemo self.old operands r }
        ensures same { self.new ≡ self.old }
        ensures canonical { IsCanonical self.new }
    {
        self.memo.insert(operands, r)?;
        Ok(())
    }
}
