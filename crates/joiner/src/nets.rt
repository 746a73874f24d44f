//! The refs of absorbed nets, made along an order of evaluation.
ghost use Rattle.std.specs.Prelude.{◌≡◌, ◌<◌, ℕ, true, List, length, IfOk, OnOk};
ghost use Rattle.bdd.specs.Diagram.{IsCanonical, Keeps};
ghost use Rattle.board.specs.Joined.{equations_of};
ghost use Rattle.board.specs.Variables.{IsVariable};
ghost use Rattle.rails.specs.Variables.{IsFit};
ghost use Rattle.joiner.specs.declared.marks.Marks.{Marks};
ghost use Rattle.joiner.specs.AbsorbedNets.{AreAbsorbable};
ghost use Rattle.joiner.specs.Marked.{AreInOrder, AreNeededNets};
ghost use Rattle.joiner.specs.Joined.{inverted_read};
ghost use Rattle.joiner.specs.Pairs.{AreClosed, terms_known, AreProper, ReadsEither, IsPairOf, IsNetPair, IsJoinedVariable, ReadPairs, HasPairs, NamesAbsorbable, pair_by as pair_of_both};

use crate::pairs::{Pair, are_known, no_pairs};
use crate::parts::{is_inverted, part_terms};
use crate::pass::unit_at_net;
use crate::sums::sum;
use bdd::Ref;
use board::Board;
use mig_base::{NoMemory, Part, Var, VarProduct};
use rails::Rails;
use std::alloc::Global;

/// Both literals of a sum and of its inverse, the other way round where the sum is inverted.
fn pair_by(low: bool, plain: Ref, inverse: Ref) -> Pair
    ensures { result ≡ pair_of_both low plain inverse }
{
    if low {
        Pair {
            level: inverse,
            inverse: plain,
        }
    } else {
        Pair {
            level: plain,
            inverse,
        }
    }
}

/// Both literals of a sum that may be inverted.
fn pair_of_sum(
    rails: &mut Rails,
    pairs: &[Option<Pair>],
    terms: &[VarProduct],
    low: bool,
) -> Result<Pair, NoMemory>
    requires fit { IsFit rails.old }
    requires canonical { IsCanonical rails.old.graph }
    requires pairs { AreProper rails.old.vars rails.old.graph pairs.now }
    requires known { terms_known rails.old.vars pairs.now terms.now ≡ true }
    ensures vars { rails.new.vars ≡ rails.old.vars }
    ensures keeps { Keeps rails.old.graph rails.new.graph }
    ensures canonical { IsCanonical rails.new.graph }
    ensures pair { IfOk result (IsPairOf rails.old.vars rails.new.graph pairs.now (record { terms = terms.now; low = low })) }
{
    let plain = sum(rails, pairs, terms)?;
    let inverse = rails.invert(plain)?;
    Ok(pair_by(low, plain, inverse))
}

/// A sum that may be inverted.
pub(crate) fn inverted_sum(
    rails: &mut Rails,
    pairs: &[Option<Pair>],
    terms: &[VarProduct],
    low: bool,
) -> Result<Ref, NoMemory>
    requires fit { IsFit rails.old }
    requires canonical { IsCanonical rails.old.graph }
    requires pairs { AreProper rails.old.vars rails.old.graph pairs.now }
    requires known { terms_known rails.old.vars pairs.now terms.now ≡ true }
    ensures vars { rails.new.vars ≡ rails.old.vars }
    ensures keeps { Keeps rails.old.graph rails.new.graph }
    ensures canonical { IsCanonical rails.new.graph }
    ensures sum { IfOk result (ReadsEither rails.old.vars rails.new.graph pairs.now (λ r. inverted_read r true (record { terms = terms.now; low = low }))) }
{
    let plain = sum(rails, pairs, terms)?;
    if !low {
        return Ok(plain);
    }
    rails.invert(plain)
}

/// The pair of a net. None where no absorbed unit drives it, or where that unit reads what isn't known.
fn net_pair(
    board: &Board,
    nets: &[Option<u32>],
    vars: &[(Var, bool)],
    rails: &mut Rails,
    pairs: &[Option<Pair>],
    net: u32,
) -> Result<Option<Pair>, NoMemory>
    requires fit { IsFit rails.old }
    requires canonical { IsCanonical rails.old.graph }
    requires pairs { AreProper rails.old.vars rails.old.graph pairs.now }
    requires listed { vars.now ≡ rails.old.vars }
    requires absorbable { NamesAbsorbable (equations_of board.now) nets.now }
    ensures vars { rails.new.vars ≡ rails.old.vars }
    ensures keeps { Keeps rails.old.graph rails.new.graph }
    ensures canonical { IsCanonical rails.new.graph }
    ensures pair { IfOk result (IsNetPair board.now nets.now rails.old.vars rails.new.graph pairs.now net) }
{
    let Some(unit) = unit_at_net(nets, net) else {
        return Ok(None);
    };
    let terms = part_terms(board, unit, Part::Logic);
    if !are_known(vars, pairs, terms) {
        return Ok(None);
    }
    let low = is_inverted(board, unit, Part::Logic);
    let pair = pair_of_sum(rails, pairs, terms, low)?;
    Ok(Some(pair))
}

/// Puts the pair of a net into the table.
fn join_variable(
    board: &Board,
    nets: &[Option<u32>],
    vars: &[(Var, bool)],
    rails: &mut Rails,
    pairs: &mut Vec<Option<Pair>>,
    variable: Var,
) -> Result<(), NoMemory>
    requires fit { IsFit rails.old }
    requires canonical { IsCanonical rails.old.graph }
    requires pairs { AreProper rails.old.vars rails.old.graph pairs.old.items }
    requires listed { vars.now ≡ rails.old.vars }
    requires absorbable { NamesAbsorbable (equations_of board.now) nets.now }
    requires nets { length nets.now ≡ length (equations_of board.now).nets }
    requires count { length pairs.old.items ≡ length nets.now }
    requires variable { IsVariable board.now variable }
    ensures vars { rails.new.vars ≡ rails.old.vars }
    ensures keeps { Keeps rails.old.graph rails.new.graph }
    ensures canonical { IsCanonical rails.new.graph }
    ensures joined { OnOk result (IsJoinedVariable board.now nets.now rails.old.vars rails.new.graph pairs.old.items pairs.new.items variable) }
{
    let Var::Net(net) = variable else {
        return Ok(());
    };
    let pair = net_pair(board, nets, vars, rails, pairs.as_slice(), net)?;
    pairs[net as usize] = pair;
    Ok(())
}

/// The pairs of the nets of the table that name listed variables alone, made along an order of evaluation.
pub(crate) fn joined_nets(
    alloc: Global,
    board: &Board,
    by_rank: &[Var],
    nets: &[Option<u32>],
    vars: &[(Var, bool)],
    rails: &mut Rails,
) -> Result<Vec<Option<Pair>>, NoMemory>
    requires order { AreInOrder board.now by_rank.now }
    requires fit { IsFit rails.old }
    requires canonical { IsCanonical rails.old.graph }
    requires listed { vars.now ≡ rails.old.vars }
    requires absorbable { NamesAbsorbable (equations_of board.now) nets.now }
    requires nets { length nets.now ≡ length (equations_of board.now).nets }
    ensures vars { rails.new.vars ≡ rails.old.vars }
    ensures keeps { Keeps rails.old.graph rails.new.graph }
    ensures canonical { IsCanonical rails.new.graph }
    ensures proper { IfOk result (λ pairs. AreProper rails.old.vars rails.new.graph pairs.items) }
    ensures read { IfOk result (λ pairs. ReadPairs board.now nets.now rails.old.vars rails.new.graph pairs.items) }
    ensures every { IfOk result (λ pairs. (absorbed : List ℕ) (marks : Marks) → AreNeededNets board.now absorbed marks nets.now → AreAbsorbable board.now absorbed → AreClosed board.now absorbed marks → HasPairs board.now absorbed marks rails.old.vars pairs.items) }
{
    let mut pairs = no_pairs(alloc, nets.len())?;
    for variable in by_rank {
        join_variable(board, nets, vars, rails, &mut pairs, *variable)?;
    }
    Ok(pairs)
}
