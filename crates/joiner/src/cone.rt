ghost use Rattle.std.specs.Prelude.{◌≡◌, ◌++◌, ℕ, List, map, filter, IfOk, OnOk};
ghost use Rattle.mig_base.specs.declared.nets.Var.{Var as Variable};
ghost use Rattle.mig_base.specs.Among.{Among};
ghost use Rattle.mig_base.specs.First.{made_from};
ghost use Rattle.board.specs.Variables.{IsVariable};
ghost use Rattle.joiner.specs.AbsorbedNets.{AreAbsorbedNets, AreAbsorbable, AreOver};
ghost use Rattle.joiner.specs.Joined.{IsCone};
ghost use Rattle.joiner.specs.Marked.{all_vars, AreNameMarks, ArePaired, is_left, is_named as named_by};

use crate::marks::Marks;
use crate::pass::{mark_all, unit_at_net};
use board::Board;
use mig_base::{NoMemory, Var, VarProduct};
use std::alloc::Global;

/// Whether a variable is no absorbed net.
fn is_kept(nets: &[Option<u32>], variable: Var) -> bool
    ensures { result ≡ is_left nets.now variable }
{
    match variable {
        Var::Net(net) => unit_at_net(nets, net).is_none(),
        Var::Reg(_) => true,
    }
}

/// Whether a variable is marked and no absorbed net.
fn is_named(nets: &[Option<u32>], marks: &Marks, variable: Var) -> bool
    ensures { result ≡ named_by nets.now marks.now variable }
{
    marks.has(variable) && is_kept(nets, variable)
}

/// Adds those of the first nets that are marked and not absorbed.
fn push_nets(
    variables: &mut Vec<Var>,
    nets: &[Option<u32>],
    marks: &Marks,
    count: u32,
) -> Result<(), NoMemory>
    ensures { OnOk result (variables.new.items ≡ variables.old.items ++ filter (named_by nets.now marks.now) (made_from Var.Net 0 count)) }
{
    for net in 0..count {
        if is_named(nets, marks, Var::Net(net)) {
            variables.push(Var::Net(net))?;
        }
    }
    Ok(())
}

/// Adds those of the registers of these units that are marked.
fn push_registers(
    variables: &mut Vec<Var>,
    nets: &[Option<u32>],
    marks: &Marks,
    registers: &[u32],
) -> Result<(), NoMemory>
    ensures { OnOk result (variables.new.items ≡ variables.old.items ++ filter (named_by nets.now marks.now) (map Var.Reg registers.now)) }
{
    for unit in registers {
        if is_named(nets, marks, Var::Reg(*unit)) {
            variables.push(Var::Reg(*unit))?;
        }
    }
    Ok(())
}

/// The marked variables that are not absorbed, in order.
fn named_variables(
    alloc: Global,
    board: &Board,
    nets: &[Option<u32>],
    marks: &Marks,
) -> Result<Vec<Var>, NoMemory>
    ensures { IfOk result (λ variables. variables.items ≡ filter (named_by nets.now marks.now) (all_vars board.now)) }
{
    let mut variables = Vec::new(alloc);
    push_nets(&mut variables, nets, marks, board.nets())?;
    push_registers(&mut variables, nets, marks, board.registers())?;
    Ok(variables)
}

/// These variables, each with whether it is pure.
fn with_purity(
    alloc: Global,
    board: &Board,
    variables: &[Var],
) -> Result<Vec<(Var, bool)>, NoMemory>
    requires { (v : Variable) → Among v variables.now → IsVariable board.now v }
    ensures { IfOk result (λ pairs. ArePaired board.now variables.now pairs.items) }
{
    let mut pairs = Vec::with_capacity(alloc, variables.len())?;
    for variable in variables {
        pairs.push((*variable, board.is_pure(*variable)))?;
    }
    Ok(pairs)
}

/// Marks of all that these products name where absorbed nets are replaced, and of the absorbed nets on the way.
pub(crate) fn name_marks(
    alloc: Global,
    board: &Board,
    nets: &[Option<u32>],
    terms: &[VarProduct],
) -> Result<Marks, NoMemory>
    requires { AreOver board.now terms.now }
    ensures { IfOk result (λ marks. (absorbed : List ℕ) → AreAbsorbedNets board.now absorbed nets.now → AreAbsorbable board.now absorbed → AreNameMarks board.now absorbed terms.now marks) }
{
    let mut marks = Marks::new(alloc, board.nets() as usize, board.units().len())?;
    marks.add_terms(terms);
    mark_all(board, board.by_rank(), nets, &mut marks);
    Ok(marks)
}

/// The marked variables that are not absorbed, in order, each with whether it is pure.
pub(crate) fn marked_cone(
    alloc: Global,
    board: &Board,
    nets: &[Option<u32>],
    marks: &Marks,
) -> Result<Vec<(Var, bool)>, NoMemory>
    ensures { IfOk result (λ cone. ArePaired board.now (filter (named_by nets.now marks.now) (all_vars board.now)) cone.items) }
{
    let variables = named_variables(alloc, board, nets, marks)?;
    with_purity(alloc, board, variables.as_slice())
}

/// The variables that these products name where absorbed nets are replaced by what their units give, each once and in order, with
/// whether it is pure. `nets` has for each net the absorbed unit that alone drives it, as `absorbed_nets` makes it.
pub fn cone_of(
    alloc: Global,
    board: &Board,
    nets: &[Option<u32>],
    terms: &[VarProduct],
) -> Result<Vec<(Var, bool)>, NoMemory>
    requires { AreOver board.now terms.now }
    ensures { IfOk result (λ cone. (absorbed : List ℕ) → AreAbsorbedNets board.now absorbed nets.now → AreAbsorbable board.now absorbed → IsCone board.now absorbed terms.now cone.items) }
{
    let marks = name_marks(alloc, board, nets, terms)?;
    marked_cone(alloc, board, nets, &marks)
}
