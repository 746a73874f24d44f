//! The triples of variables.
ghost use Rattle.std.specs.Prelude.{◌≡◌, ◌&&◌, ◌||◌, not, IfOk};
ghost use Rattle.bdd.specs.Diagram.{IsCanonical, IsValid, Keeps};
ghost use Rattle.rails.specs.Points.{IsListed};
ghost use Rattle.rails.specs.Variables.{IsFit};
ghost use Rattle.reckoned.specs.Variables.{may_float};
ghost use Rattle.reckoned.specs.VariableTriples.{IsFloat, IsTripleOf, AreTriplesOf};

use bdd::{Graph, NoNode, Ref};
use mig_base::{NoMemory, Var, VarLit};
use rails::Rails;
use reckoning::Three;
use std::alloc::Global;

/// Whether a variable is the handed level of a Both port, which may be Z.
fn floats(var: Var, is_pure: bool) -> bool
    ensures { result ≡ may_float (var, is_pure) }
{
    match var {
        Var::Net(_) => !is_pure,
        Var::Reg(_) => false,
    }
}

/// Where a variable is neither 1 nor 0, if it may float, and else nowhere.
fn float_of(graph: &mut Graph, floats: bool, one: Ref, zero: Ref) -> Result<Ref, NoNode>
    requires one { IsValid graph.old one }
    requires zero { IsValid graph.old zero }
    ensures keeps { Keeps graph.old graph.new }
    ensures canonical { IsCanonical graph.new }
    ensures float { IfOk result (IsFloat graph.old graph.new floats one zero) }
{
    if !floats {
        return Ok(graph.constant(false));
    }
    let driven = graph.or(one, zero)?;
    graph.not(driven)
}

/// The triple of a variable.
fn triple_of(rails: &mut Rails, var: Var, is_pure: bool) -> Result<Three, NoMemory>
    requires fit { IsFit rails.old }
    requires listed { IsListed rails.old.vars var }
    ensures vars { rails.new.vars ≡ rails.old.vars }
    ensures keeps { Keeps rails.old.graph rails.new.graph }
    ensures canonical { IsCanonical rails.new.graph }
    ensures triple { IfOk result (IsTripleOf rails.new.graph rails.old.vars (var, is_pure)) }
{
    let one = rails.row(&[VarLit { var, high: true }])?;
    let zero = rails.row(&[VarLit { var, high: false }])?;
    let floats = floats(var, is_pure);
    let Ok(float) = float_of(rails.graph(), floats, one, zero) else {
        return Err(NoMemory);
    };
    Ok(Three { one, zero, float })
}

/// The triples of all variables, in their order.
pub(crate) fn triples_of(alloc: Global, rails: &mut Rails) -> Result<Vec<Three>, NoMemory>
    requires { IsFit rails.old }
    ensures vars { rails.new.vars ≡ rails.old.vars }
    ensures keeps { Keeps rails.old.graph rails.new.graph }
    ensures canonical { IsCanonical rails.new.graph }
    ensures triples { IfOk result (λ made. AreTriplesOf rails.new.graph rails.old.vars rails.old.vars made.items) }
{
    let count = rails.vars().len();
    let mut made = Vec::with_capacity(alloc, count)?;
    for i in 0..count {
        let (var, is_pure) = rails.vars()[i];
        made.push(triple_of(rails, var, is_pure)?)?;
    }
    Ok(made)
}
