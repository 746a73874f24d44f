ghost use Rattle.std.specs.Prelude.{◌≡◌, [], ◌∷◌, true, false, IfOk};
ghost use Rattle.bdd.specs.Diagram.{Keeps};
ghost use Rattle.mig_base.specs.declared.nets.Var.TheVariants.{Net};
ghost use Rattle.rails.specs.Variables.{all_rails as rails_in, IsFit};
ghost use Rattle.rails.specs.Points.{IsProper};

use crate::Rails;
use bdd::Ref;
use mig_base::{Items, Level, NoMemory, Var, VarLit, VarProduct};
use std::alloc::Global;
use std::test::Fail;

const A: Var = Var::Net(2);

const B: Var = Var::Net(3);

/// An impure variable and a pure one.
fn two_variables(alloc: Global) -> Result<Rails, NoMemory>
    ensures vars { IfOk result (λ rails. rails.vars ≡ (Net 2, false) ∷ (Net 3, true) ∷ []) }
    ensures fit { IfOk result IsFit }
{
    let mut vars = Vec::new(alloc);
    vars.push((A, false))?;
    vars.push((B, true))?;
    Rails::new(alloc, vars)
}

fn literal(var: Var, high: bool) -> VarLit
    ensures { result ≡ record { var = var; high = high } }
{
    VarLit { var, high }
}

/// The product of a literal of A, and B.
fn with_b(alloc: Global, high: bool) -> Result<VarProduct, NoMemory>
    ensures { IfOk result (λ row. row.lits ≡ record { var = Net 2; high = high } ∷ record { var = Net 3; high = true } ∷ []) }
{
    let mut lits = Vec::new(alloc);
    lits.push(literal(A, high))?;
    lits.push(literal(B, true))?;
    Ok(VarProduct {
        lits: Items::new(lits),
    })
}

/// The sum of A B and /A B.
fn either(alloc: Global, rails: &mut Rails) -> Result<Ref, NoMemory>
    requires vars { rails.old.vars ≡ (Net 2, false) ∷ (Net 3, true) ∷ [] }
    requires fit { IsFit rails.old }
    ensures vars { rails.new.vars ≡ rails.old.vars }
    ensures keeps { Keeps rails.old.graph rails.new.graph }
    ensures proper { IfOk result (IsProper (rails_in rails.new.vars) rails.new.graph) }
{
    let mut rows = Vec::new(alloc);
    rows.push(with_b(alloc, true)?)?;
    rows.push(with_b(alloc, false)?)?;
    rails.sum(rows.as_slice())
}

#[test]
fn literals_by_place(rt: HostRuntime) -> Result<(), Fail> {
    let rails = two_variables(rt.alloc())?;
    assert_eq!(rt; rails.vars().len(), 2);
    assert!(rt; rails.literal(0, true) == literal(A, true));
    assert!(rt; rails.literal(1, true) == literal(A, false));
    assert!(rt; rails.literal(2, false) == literal(B, false));
    Ok(())
}

#[test]
fn a_sum_is_not_more_than_its_products(rt: HostRuntime) -> Result<(), Fail> {
    let mut rails = two_variables(rt.alloc())?;
    let f = either(rt.alloc(), &mut rails)?;
    assert_eq!(rt; rails.value(f, &[Level::X, Level::One]), Level::X);
    let inverse = rails.invert(f)?;
    assert_eq!(rt; rails.value(inverse, &[Level::X, Level::One]), Level::X);
    Ok(())
}

#[test]
fn a_replaced_variable(rt: HostRuntime) -> Result<(), Fail> {
    let mut rails = two_variables(rt.alloc())?;
    let f = either(rt.alloc(), &mut rails)?;
    let b = rails.row(&[literal(B, true)])?;
    let replaced = rails.replace(f, A, b)?;
    assert!(rt; replaced == b);
    Ok(())
}
