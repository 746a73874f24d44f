ghost use Rattle.std.specs.Prelude.{◌≡◌, ◌<◌, ℕ, length, IfOk};
ghost use Rattle.std.specs.List.{AllPairs};
ghost use Rattle.mig_base.specs.Among.{Among};
ghost use Rattle.structure.specs.Absorbable.{IsAbsorbable};
ghost use Rattle.board.specs.Joined.{equations_of};
ghost use Rattle.plans.specs.Moves.{IsDemand, wide_room};
ghost use Rattle.forms.specs.Outcomes.{has_few, terms_in};

use crate::absorbing::Absorbed;
use crate::logic::{Form, form_of};
use crate::old::is_registered;
use crate::rooms::Room;
use board::Board;
use mig_base::NoMemory;
use std::alloc::Global;

/// The most terms of a cell of a 22V10.
const MOST_TERMS: u32 = 16;

/// The demand of a unit where no form of its Logic fits.
const NO_FORM: u32 = 17;

/// How many terms the first form of a unit's Logic has that fits a 22V10 cell of sixteen terms, under units by number that are
/// absorbed, rising. 17 where none fits, as where the joined part has more than 32 variables. Fails for want of memory alone.
pub fn demand(alloc: Global, board: &Board, absorbed: &[u32], unit: u32) -> Result<u32, NoMemory>
    requires rises { AllPairs (◌<◌) absorbed.now }
    requires absorbable { (u : ℕ) → Among u absorbed.now → IsAbsorbable (equations_of board.now) u }
    requires unit { unit < length (equations_of board.now).units }
    ensures { IfOk result (IsDemand board.now absorbed.now unit) }
{
    let absorbed = Absorbed::new(alloc, board, absorbed)?;
    let room = wide_cell(is_registered(board, unit));
    let form = form_of(alloc, &absorbed, unit, &room)?;
    Ok(terms_of(form))
}

/// What a 22V10 cell of sixteen terms offers.
fn wide_cell(registered: bool) -> Room
    ensures { result ≡ wide_room registered }
{
    Room {
        most: MOST_TERMS,
        may_invert: !registered,
    }
}

/// How many terms a form has, or 17.
fn terms_of(form: Form) -> u32
    requires { has_few form }
    ensures { result ≡ terms_in form }
{
    match form {
        Form::Fits { terms, .. } => terms.items().len() as u32,
        Form::Wide { .. } | Form::PrimesOver | Form::TermsOver { .. } => NO_FORM,
    }
}
