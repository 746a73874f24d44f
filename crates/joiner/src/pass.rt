ghost use Rattle.std.specs.Prelude.{◌≡◌};
ghost use Rattle.mig_base.specs.declared.plans.Part.TheVariants.{Logic};
ghost use Rattle.joiner.specs.Joined.{unit_part};
ghost use Rattle.joiner.specs.Marked.{unit_at, terms_behind, after_net, after_variables};

use crate::marks::Marks;
use board::Board;
use mig_base::{Part, Var, VarProduct};

/// The absorbed unit that alone drives a net, by the table that `absorbed_nets` makes. None where there is none.
pub fn unit_at_net(nets: &[Option<u32>], net: u32) -> Option<u32>
    ensures { result ≡ unit_at nets.now net }
{
    let net = net as usize;
    if net < nets.len() { nets[net] } else { None }
}

/// What a unit gives, and nothing where the board doesn't have it.
fn logic_of(board: &Board, unit: u32) -> &[VarProduct]
    ensures { result.now ≡ (unit_part board.now unit Logic).terms }
{
    if (unit as usize) < board.units().len() {
        board.products(unit, Part::Logic)
    } else {
        &[]
    }
}

/// What the unit of a net gives that is absorbed, and else nothing.
fn behind<'a>(board: &'a Board, nets: &[Option<u32>], net: u32) -> &'a [VarProduct]
    ensures { result.now ≡ terms_behind board.now (unit_at nets.now net) }
{
    match unit_at_net(nets, net) {
        Some(unit) => logic_of(board, unit),
        None => &[],
    }
}

/// Marks what stands behind a net that is absorbed and marked.
fn mark_behind(board: &Board, nets: &[Option<u32>], marks: &mut Marks, net: u32)
    ensures { marks.new ≡ after_net board.now nets.now marks.old net }
{
    if marks.has(Var::Net(net)) {
        marks.add_terms(behind(board, nets, net));
    }
}

/// Marks what stands behind nets that are absorbed and marked, from the last of these variables to the first.
pub(crate) fn mark_all(board: &Board, by_rank: &[Var], nets: &[Option<u32>], marks: &mut Marks)
    ensures { marks.new ≡ after_variables board.now nets.now marks.old by_rank.now }
{
    for variable in by_rank.iter().rev() {
        if let Var::Net(net) = variable {
            mark_behind(board, nets, marks, *net);
        }
    }
}
