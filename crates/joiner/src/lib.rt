//! The parts of a board's units with absorbed nets replaced by what their units give, as functions over two rails.
#![tactic(auto)]

mod absorbed;
mod cone;
mod marks;
mod nets;
mod pairs;
mod parts;
mod pass;
mod sums;

ghost use Rattle.std.specs.Prelude.{◌≡◌, ◌<◌, ◌≤◌, ℕ, List, length, IfOk, IfErr, OnOk};
ghost use Rattle.std.specs.List.{AllPairs};
ghost use Rattle.bdd.specs.Diagram.{IsValid, function_of, IsCanonical};
ghost use Rattle.mig_base.specs.Among.{Among};
ghost use Rattle.structure.specs.Absorbable.{IsAbsorbable};
ghost use Rattle.board.specs.Joined.{equations_of};
ghost use Rattle.rails.specs.Variables.{IsFit};
ghost use Rattle.joiner.specs.AbsorbedNets.{IsAbsorbedTable};
ghost use Rattle.joiner.specs.Joined.{unit_part};
ghost use Rattle.joiner.specs.JoinedPart.{IsJoinedPart, HasJoinedValue, IsJoinRefusal, IsTooMany};

use crate::absorbed::needed_nets;
use crate::cone::{marked_cone, name_marks};
use crate::nets::{inverted_sum, joined_nets};
use crate::parts::{is_inverted, part_terms};
pub use absorbed::absorbed_nets;
use bdd::Ref;
use board::Board;
pub use cone::cone_of;
use mig_base::{NoMemory, Part, Var};
pub use pass::unit_at_net;
use rails::Rails;
use std::alloc::Global;

/// Why there is no joined part: it names more than 32 variables, of which this is the number, or there is no memory.
#[derive(Clone, Copy, PartialEq, Eq, Debug)]
pub enum JoinError {
    ConeWide { count: u32 },
    Memory,
}

impl From<NoMemory> for JoinError {
    ghost use Rattle.joiner.specs.declared.JoinError.TheVariants.{Memory};

    ghost from_gives = { λ _ e. e ≡ Memory };

    fn from(_: NoMemory) -> Self {
        JoinError::Memory
    }
}

/// A part of a unit with absorbed nets replaced by what their units give: a function over the two rails of the variables of its
/// cone.
#[derive(Drop)]
pub struct JoinedPart {
    pub rails: Rails,
    pub f: Ref,
}

/// These variables once more.
fn copied(alloc: Global, vars: &[(Var, bool)]) -> Result<Vec<(Var, bool)>, NoMemory>
    ensures { IfOk result (λ copy. copy.items ≡ vars.now) }
{
    Ok(vars.to_vec(alloc)?)
}

/// Refuses more than 32 variables, or rather 2^32 of them for want of memory.
fn check_width(count: usize) -> Result<(), JoinError>
    ensures few { OnOk result (count ≤ 32) }
    ensures many { IfErr result (IsTooMany count) }
{
    if count <= 32 {
        return Ok(());
    }
    if count > u32::MAX as usize {
        return Err(JoinError::Memory);
    }
    Err(JoinError::ConeWide {
        count: count as u32,
    })
}

/// A part of a unit with absorbed nets replaced by what their units give, by the table that `absorbed_nets` makes of units that may
/// be absorbed. Diagrams are made for the absorbed nets of its cone alone. More than 32 variables, or want of memory, are an error.
pub fn joined_with(
    alloc: Global,
    board: &Board,
    nets: &[Option<u32>],
    unit: u32,
    part: Part,
) -> Result<JoinedPart, JoinError>
    requires table { (absorbed : List ℕ) × IsAbsorbedTable board.now absorbed nets.now }
    requires unit { unit < length (equations_of board.now).units }
    ensures joined { IfOk result (λ j. (absorbed : List ℕ) → IsAbsorbedTable board.now absorbed nets.now → IsJoinedPart board.now absorbed (unit_part board.now unit part) j.rails.vars (function_of j.rails.graph j.f)) }
    ensures value { IfOk result (λ j. (absorbed : List ℕ) → IsAbsorbedTable board.now absorbed nets.now → HasJoinedValue board.now absorbed (unit_part board.now unit part) j.rails.vars (function_of j.rails.graph j.f)) }
    ensures valid { IfOk result (λ j. IsValid j.rails.graph j.f) }
    ensures fit { IfOk result (λ j. IsFit j.rails) }
    ensures canonical { IfOk result (λ j. IsCanonical j.rails.graph) }
    ensures refused { IfErr result (λ e. (absorbed : List ℕ) → IsAbsorbedTable board.now absorbed nets.now → IsJoinRefusal board.now absorbed (unit_part board.now unit part) e) }
{
    let terms = part_terms(board, unit, part);
    let marks = name_marks(alloc, board, nets, terms)?;
    let cone = marked_cone(alloc, board, nets, &marks)?;
    check_width(cone.len())?;
    let vars = copied(alloc, cone.as_slice())?;
    let needed = needed_nets(alloc, board, nets, &marks)?;
    let mut rails = Rails::new(alloc, cone)?;
    let by_rank = board.by_rank();
    let pairs = joined_nets(
        alloc,
        board,
        by_rank,
        needed.as_slice(),
        vars.as_slice(),
        &mut rails,
    )?;
    let low = is_inverted(board, unit, part);
    let f = inverted_sum(&mut rails, pairs.as_slice(), terms, low)?;
    Ok(JoinedPart { rails, f })
}

/// A part of a unit with absorbed nets replaced by what their units give. `absorbed` has units by number that may be absorbed,
/// rising. More than 32 variables, or want of memory, are an error.
pub fn joined(
    alloc: Global,
    board: &Board,
    absorbed: &[u32],
    unit: u32,
    part: Part,
) -> Result<JoinedPart, JoinError>
    requires rises { AllPairs (◌<◌) absorbed.now }
    requires absorbable { (u : ℕ) → Among u absorbed.now → IsAbsorbable (equations_of board.now) u }
    requires unit { unit < length (equations_of board.now).units }
    ensures joined { IfOk result (λ j. IsJoinedPart board.now absorbed.now (unit_part board.now unit part) j.rails.vars (function_of j.rails.graph j.f)) }
    ensures value { IfOk result (λ j. HasJoinedValue board.now absorbed.now (unit_part board.now unit part) j.rails.vars (function_of j.rails.graph j.f)) }
    ensures valid { IfOk result (λ j. IsValid j.rails.graph j.f) }
    ensures fit { IfOk result (λ j. IsFit j.rails) }
    ensures canonical { IfOk result (λ j. IsCanonical j.rails.graph) }
    ensures refused { IfErr result (IsJoinRefusal board.now absorbed.now (unit_part board.now unit part)) }
{
    let nets = absorbed_nets(alloc, board, absorbed)?;
    joined_with(alloc, board, nets.items(), unit, part)
}
