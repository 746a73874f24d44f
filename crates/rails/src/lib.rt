//! Three-valued functions of a board's variables as Boolean functions, with one Boolean for a pure variable, which is 0 or
//! 1, and two for any other one: one for its true literal, and one for its complement literal.
#![tactic(auto)]

ghost use Rattle.std.specs.Prelude.{◌≡◌, ◌<◌, ◌^◌, true, List, [], ◌∷◌, length, All, IfOk, IfSome, slice_get};
ghost use Rattle.std.specs.Borrow.{Lends, sem};
ghost use Rattle.bdd.specs.Tree.{Leaf, Point};
ghost use Rattle.bdd.specs.Diagram.{IsValid, function_of, IsCanonical, Keeps};
ghost use Rattle.bdd.specs.contracts.Graph as graph_type;
ghost use Rattle.mig_base.specs.Bools.{same_bool};
ghost use Rattle.mig_base.specs.Levels.{not3 as level_not};
ghost use Rattle.mig_base.specs.declared.levels.Level.{Level as LevelOf};
ghost use Rattle.rails.specs.Variables.{all_rails as rails_in, IsFit, AreRising};
ghost use Rattle.rails.specs.Points.{high_of, literal_of, literal_holds, MayStand, row_holds, sum_holds, inverse, replacement, IsListed, Is, IsMonotone, IsProper, ReadsPure, IsPure};
ghost use Rattle.rails.specs.Levels.{AreLevels, value_under, row_level, sum_level, with_level};
ghost use Rattle.rails.specs.contracts.Rails.{the_row};

mod changes;
mod composing;
mod lists;
mod products;
#[cfg(test)]
mod tests;
mod values;

use bdd::{Graph, NoNode, Ref};
use mig_base::{Level, NoMemory, Var, VarLit, VarProduct};
use std::alloc::Global;
use std::marker::Model;

/// What a Boolean says: which value a pure variable has, or that the true or the complement literal of another one holds.
#[derive(Clone, Copy, PartialEq, Eq)]
enum Side {
    Pure,
    High,
    Low,
}

/// A Boolean of a function: its variable, by name and by number in the list, and its side.
#[derive(Clone, Copy)]
struct Rail {
    var: Var,
    variable: u32,
    side: Side,
}

/// A graph of functions of the Booleans of some variables, and the list of these variables with their purity.
///
/// Every call keeps the list and each earlier ref with its function, whatever it answers.
#[derive(Drop)]
pub struct Rails {
    graph: Graph,
    vars: Vec<(Var, bool)>,
    rails: Vec<Rail>,
}

impl Model for Rails {
    ghost use Rattle.rails.specs.Variables.{Held, held_code};

    ghost Value = { Held };

    ghost coded = { held_code };

    ghost use Rattle.rails.specs.Inside.{seen, IsRails};

    ghost view = { seen };

    ghost invariant = { IsRails };
}

/// Want of memory for a node is want of memory.
fn or_no_memory(made: Result<Ref, NoNode>) -> Result<Ref, NoMemory>
    ensures { IfOk result (λ r. made ≡ Ok r) }
{
    match made {
        Ok(r) => Ok(r),
        Err(NoNode) => Err(NoMemory),
    }
}

/// Whether the literal of a Boolean is the true one; `plain` chooses where the Boolean is pure.
fn is_true_literal(side: Side, plain: bool) -> bool
    ensures { result ≡ high_of side plain }
{
    match side {
        Side::Pure => plain,
        Side::High => true,
        Side::Low => false,
    }
}

impl Rails {
    /// The constants alone, over the Booleans of these variables. Each comes with whether it is pure; nets by number stand
    /// before registers by number.
    pub fn new(alloc: Global, vars: Vec<(Var, bool)>) -> Result<Rails, NoMemory>
        requires rising { AreRising vars.items }
        requires few { length vars.items < 2 ^ 31 }
        ensures vars { IfOk result (λ rails. rails.vars ≡ vars.items) }
        ensures fit { IfOk result IsFit }
        ensures canonical { IfOk result (λ rails. IsCanonical rails.graph) }
        ensures constants { IfOk result (λ rails. rails.graph.trees ≡ Leaf true ∷ []) }
    {
        let rails = lists::all_rails(alloc, vars.as_slice())?;
        let Ok(graph) = Graph::new(alloc, rails.len() as u32) else {
            return Err(NoMemory);
        };
        Ok(Rails { graph, vars, rails })
    }

    /// The variables, each with whether it is pure, in order.
    pub fn vars(&self) -> &[(Var, bool)]
        ensures vars { result.now ≡ self.now.vars }
        ensures canonical { IsCanonical self.now.graph }
    {
        let _count = self.graph.vars();
        self.vars.as_slice()
    }

    /// Lends the graph.
    pub fn graph(&mut self) -> &mut Graph
        ensures graph { result.now ≡ self.entry.now.graph }
        ensures canonical { IsCanonical result.now }
        ensures* lends { sem 𝓛 (Lends the_row graph_type.the_row self.entry result (λ g. record { graph = g; vars = self.entry.now.vars })) }
    {
        let _count = self.graph.vars();
        &mut self.graph
    }

    /// The literal that the Boolean at a place stands for, or, where its variable is pure and `plain` is not set, the
    /// complement of that literal.
    pub fn literal(&self, place: u32, plain: bool) -> VarLit
        requires place { place < length (rails_in self.now.vars) }
        requires plain { IfSome (slice_get (rails_in self.now.vars) place) (λ r. MayStand r.side plain) }
        ensures literal { IfSome (slice_get (rails_in self.now.vars) place) (λ r. result ≡ literal_of r plain) }
        ensures means { (p : Point) → literal_holds (rails_in self.now.vars) result p ≡ same_bool plain (p place) }
        ensures canonical { IsCanonical self.now.graph }
    {
        let _count = self.graph.vars();
        let rail = self.rails[place as usize];
        VarLit {
            var: rail.var,
            high: is_true_literal(rail.side, plain),
        }
    }

    /// The product of literals, 1 where there is none.
    pub fn row(&mut self, lits: &[VarLit]) -> Result<Ref, NoMemory>
        requires fit { IsFit self.old }
        requires listed { All (λ x. IsListed self.old.vars x.var) lits.now }
        ensures vars { self.new.vars ≡ self.old.vars }
        ensures keeps { Keeps self.old.graph self.new.graph }
        ensures canonical { IsCanonical self.new.graph }
        ensures row { IfOk result (Is self.new.graph (row_holds (rails_in self.old.vars) lits.now)) }
        ensures monotone { IfOk result (λ r. IsMonotone (rails_in self.old.vars) (function_of self.new.graph r)) }
        ensures level { IfOk result (λ r. (levels : List LevelOf) → AreLevels self.old.vars levels
            → value_under (rails_in self.old.vars) (function_of self.new.graph r) levels ≡ row_level self.old.vars levels lits.now) }
    {
        or_no_memory(products::row(&mut self.graph, self.rails.as_slice(), lits))
    }

    /// The sum of products, 0 where there is none.
    pub fn sum(&mut self, rows: &[VarProduct]) -> Result<Ref, NoMemory>
        requires fit { IsFit self.old }
        requires listed { All (λ row. All (λ x. IsListed self.old.vars x.var) row.lits) rows.now }
        ensures vars { self.new.vars ≡ self.old.vars }
        ensures keeps { Keeps self.old.graph self.new.graph }
        ensures canonical { IsCanonical self.new.graph }
        ensures sum { IfOk result (Is self.new.graph (sum_holds (rails_in self.old.vars) rows.now)) }
        ensures monotone { IfOk result (λ r. IsMonotone (rails_in self.old.vars) (function_of self.new.graph r)) }
        ensures level { IfOk result (λ r. (levels : List LevelOf) → AreLevels self.old.vars levels
            → value_under (rails_in self.old.vars) (function_of self.new.graph r) levels ≡ sum_level self.old.vars levels rows.now) }
    {
        or_no_memory(products::sum(&mut self.graph, self.rails.as_slice(), rows))
    }

    /// The function of the inverted expression: its value is the inverted value of `f`.
    pub fn invert(&mut self, f: Ref) -> Result<Ref, NoMemory>
        requires fit { IsFit self.old }
        requires proper { IsProper (rails_in self.old.vars) self.old.graph f }
        ensures vars { self.new.vars ≡ self.old.vars }
        ensures keeps { Keeps self.old.graph self.new.graph }
        ensures canonical { IsCanonical self.new.graph }
        ensures inverse { IfOk result (Is self.new.graph (inverse (rails_in self.old.vars) (function_of self.old.graph f))) }
        ensures monotone { IfOk result (λ r. IsMonotone (rails_in self.old.vars) (function_of self.new.graph r)) }
        ensures level { IfOk result (λ r. (levels : List LevelOf) → AreLevels self.old.vars levels
            → value_under (rails_in self.old.vars) (function_of self.new.graph r) levels
            ≡ level_not (value_under (rails_in self.old.vars) (function_of self.old.graph f) levels)) }
    {
        let alloc = *self.vars.allocator();
        or_no_memory(changes::inverted(alloc, &mut self.graph, self.rails.as_slice(), f))
    }

    /// `f` with the true literals of `v` replaced by `g`, and the complement ones by the inverse of `g`.
    pub fn replace(&mut self, f: Ref, v: Var, g: Ref) -> Result<Ref, NoMemory>
        requires fit { IsFit self.old }
        requires proper { IsProper (rails_in self.old.vars) self.old.graph f }
        requires proper_g { IsProper (rails_in self.old.vars) self.old.graph g }
        requires listed { IsListed self.old.vars v }
        requires pure { IsPure self.old.vars v → ReadsPure (rails_in self.old.vars) (function_of self.old.graph g) }
        ensures vars { self.new.vars ≡ self.old.vars }
        ensures keeps { Keeps self.old.graph self.new.graph }
        ensures canonical { IsCanonical self.new.graph }
        ensures replacement { IfOk result (Is self.new.graph (replacement (rails_in self.old.vars) (function_of self.old.graph f) v (function_of self.old.graph g))) }
        ensures monotone { IfOk result (λ r. IsMonotone (rails_in self.old.vars) (function_of self.new.graph r)) }
        ensures level { IfOk result (λ r. (levels : List LevelOf) → AreLevels self.old.vars levels
            → value_under (rails_in self.old.vars) (function_of self.new.graph r) levels
            ≡ value_under (rails_in self.old.vars) (function_of self.old.graph f)
            (with_level self.old.vars levels v (value_under (rails_in self.old.vars) (function_of self.old.graph g) levels))) }
    {
        let alloc = *self.vars.allocator();
        or_no_memory(changes::replaced(alloc, &mut self.graph, self.rails.as_slice(), f, v, g))
    }

    /// The value of `f` under a level for each variable: 1 where it holds with both Booleans of each X variable false, else
    /// 0 where it fails with both true, else X.
    pub fn value(&self, f: Ref, levels: &[Level]) -> Level
        requires fit { IsFit self.now }
        requires valid { IsValid self.now.graph f }
        requires levels { AreLevels self.now.vars levels.now }
        ensures value { result ≡ value_under (rails_in self.now.vars) (function_of self.now.graph f) levels.now }
        ensures fit { IsFit self.now }
        ensures canonical { IsCanonical self.now.graph }
    {
        let _count = self.graph.vars();
        let rails = self.rails.as_slice();
        let surely = values::holds_under(&self.graph, rails, f, levels, false);
        let maybe = values::holds_under(&self.graph, rails, f, levels, true);
        match (surely, maybe) {
            (true, _) => Level::One,
            (false, true) => Level::X,
            (false, false) => Level::Zero,
        }
    }
}
