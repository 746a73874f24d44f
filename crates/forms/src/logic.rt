ghost use Rattle.std.specs.Prelude.{◌≡◌, ◌<◌, ℕ, List, [], ◌∷◌, false, true, length, IfOk};
ghost use Rattle.board.specs.Joined.{equations_of};
ghost use Rattle.joiner.specs.AbsorbedNets.{IsAbsorbedTable};
ghost use Rattle.joiner.specs.Joined.{unit_part};
ghost use Rattle.mig_base.specs.declared.plans.Part.TheVariants as part;
ghost use Rattle.plans.specs.Forms.{Direct, old_products as products_before, reads_absorbed};
ghost use Rattle.forms.specs.Attempts.{IsAttempt, IsFailure};
ghost use Rattle.forms.specs.Cones.{IsNarrow};
ghost use Rattle.forms.specs.Outcomes.{IsFormOf, IsOldAttempt, IsOldFailure, cover_tries, form_by as form_made, behind_if};

use crate::absorbing::{Absorbed, Cone};
use crate::attempts::{Attempt, Failure, behind, tried};
use crate::covers::cover_of;
use crate::old::{Products, old_low, old_products};
use crate::rooms::Room;
use board::Board;
use joiner::JoinedPart;
use mig_base::{NoMemory, Part};
use std::alloc::Global;

/// What Logic of a unit comes to in a cell: the first form that fits, the number of its variables where they are more than 32
/// behind absorbed nets, or why no form fits: an allowed cover has too many primes, or all of them have more terms than the cell,
/// and `needed` at least.
#[derive(Drop)]
pub enum Form {
    Fits { low: bool, terms: Products },
    Wide { count: u32 },
    PrimesOver,
    TermsOver { needed: u32 },
}

/// What Logic of a unit comes to in a cell. No cover is made where the old products fit. Fails for want of memory alone.
pub fn form_of(alloc: Global, absorbed: &Absorbed, unit: u32, room: &Room) -> Result<Form, NoMemory>
    requires table { IsAbsorbedTable absorbed.now.board.now absorbed.now.units.now absorbed.now.nets }
    requires unit { unit < length (equations_of absorbed.now.board.now).units }
    ensures { IfOk result (IsFormOf absorbed.now.board.now absorbed.now.units.now unit room.now) }
{
    let products = old_products(alloc, absorbed.board, unit, Part::Logic)?;
    if absorbed.is_read_by(products.items()) {
        return replaced_form(alloc, absorbed, unit, room);
    }
    match old_attempt(absorbed.board, unit, products, room)? {
        None => covered_form(alloc, absorbed, unit, room, None),
        Some(Attempt::Fails(failure)) => covered_form(alloc, absorbed, unit, room, Some(failure)),
        Some(Attempt::Fits { low, terms }) => Ok(Form::Fits { low, terms }),
    }
}

/// What the old products come to that read no absorbed net. None where the cell can't invert them.
fn old_attempt(
    board: &Board,
    unit: u32,
    products: Products,
    room: &Room,
) -> Result<Option<Attempt>, NoMemory>
    requires { products ≡ products_before (equations_of board.now) unit part.Logic }
    ensures { IfOk result (IsOldAttempt board.now unit room.now) }
{
    let low = old_low(board, unit);
    if low && !room.may_invert {
        return Ok(None);
    }
    Ok(Some(tried(low, Some(products), room.most)?))
}

/// What Logic comes to that reads an absorbed net.
fn replaced_form(
    alloc: Global,
    absorbed: &Absorbed,
    unit: u32,
    room: &Room,
) -> Result<Form, NoMemory>
    requires table { IsAbsorbedTable absorbed.now.board.now absorbed.now.units.now absorbed.now.nets }
    requires unit { unit < length (equations_of absorbed.now.board.now).units }
    requires reads { reads_absorbed absorbed.now.board.now absorbed.now.units.now unit part.Logic ≡ true }
    ensures { IfOk result (IsFormOf absorbed.now.board.now absorbed.now.units.now unit room.now) }
{
    match absorbed.join(alloc, unit, Part::Logic)? {
        Cone::Wide { count } => Ok(Form::Wide { count }),
        Cone::Narrow(mut joined) => {
            let covers = cover_attempt(alloc, absorbed.board, &mut joined, room)?;
            Ok(form_by(covers))
        }
    }
}

/// What Logic comes to that reads no absorbed net, where the old products don't fit or can't be inverted.
fn covered_form(
    alloc: Global,
    absorbed: &Absorbed,
    unit: u32,
    room: &Room,
    old: Option<Failure>,
) -> Result<Form, NoMemory>
    requires table { IsAbsorbedTable absorbed.now.board.now absorbed.now.units.now absorbed.now.nets }
    requires unit { unit < length (equations_of absorbed.now.board.now).units }
    requires reads { reads_absorbed absorbed.now.board.now absorbed.now.units.now unit part.Logic ≡ false }
    requires old { IsOldFailure absorbed.now.board.now absorbed.now.units.now unit room.now old }
    ensures { IfOk result (IsFormOf absorbed.now.board.now absorbed.now.units.now unit room.now) }
{
    match absorbed.join(alloc, unit, Part::Logic)? {
        // The old products are rows of one chip, whose columns read 22 variables at most. So this is no answer that is given.
        Cone::Wide { .. } => Err(NoMemory),
        Cone::Narrow(mut joined) => {
            let covers = cover_attempt(alloc, absorbed.board, &mut joined, room)?;
            Ok(form_by(behind_old(old, covers)))
        }
    }
}

/// What the covers of a joined part come to: the direct one, and then the inverse one where the cell may invert.
fn cover_attempt(
    alloc: Global,
    board: &Board,
    joined: &mut JoinedPart,
    room: &Room,
) -> Result<Attempt, NoMemory>
    requires { (absorbed : List ℕ) × (unit : ℕ) × IsNarrow board.now absorbed (unit_part board.now unit part.Logic) joined.old }
    ensures { IfOk result (λ made. (absorbed : List ℕ) (unit : ℕ) → IsNarrow board.now absorbed (unit_part board.now unit part.Logic) joined.old → IsAttempt board.now absorbed unit room.now (cover_tries room.now.may_invert) made) }
{
    let cover = cover_of(alloc, board, joined, false)?;
    match tried(false, cover, room.most)? {
        Attempt::Fits { low, terms } => Ok(Attempt::Fits { low, terms }),
        Attempt::Fails(failure) => inverse_attempt(alloc, board, joined, room, failure),
    }
}

/// What they come to where the direct one fails.
fn inverse_attempt(
    alloc: Global,
    board: &Board,
    joined: &mut JoinedPart,
    room: &Room,
    direct: Failure,
) -> Result<Attempt, NoMemory>
    requires { (absorbed : List ℕ) × (unit : ℕ) × IsNarrow board.now absorbed (unit_part board.now unit part.Logic) joined.old }
    ensures { IfOk result (λ made. (absorbed : List ℕ) (unit : ℕ) → IsNarrow board.now absorbed (unit_part board.now unit part.Logic) joined.old → IsFailure board.now absorbed unit room.now (Direct ∷ []) direct → IsAttempt board.now absorbed unit room.now (cover_tries room.now.may_invert) made) }
{
    if !room.may_invert {
        return Ok(Attempt::Fails(direct));
    }
    let cover = cover_of(alloc, board, joined, true)?;
    let inverse = tried(true, cover, room.most)?;
    Ok(behind(direct, inverse))
}

/// What covers come to behind the old products, if these are tried.
fn behind_old(old: Option<Failure>, covers: Attempt) -> Attempt
    ensures { result ≡ behind_if old covers }
{
    match old {
        None => covers,
        Some(failure) => behind(failure, covers),
    }
}

fn form_by(made: Attempt) -> Form
    ensures { result ≡ form_made made }
{
    match made {
        Attempt::Fits { low, terms } => Form::Fits { low, terms },
        Attempt::Fails(Failure::PrimesOver) => Form::PrimesOver,
        Attempt::Fails(Failure::TermsOver { needed }) => Form::TermsOver { needed },
    }
}
