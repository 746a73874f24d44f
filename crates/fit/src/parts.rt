ghost use Rattle.std.specs.Prelude.{◌≡◌, ◌<◌, length, IfOk};
ghost use Rattle.board.specs.Joined.{equations_of};
ghost use Rattle.joiner.specs.AbsorbedNets.{AreAbsorbable, IsAbsorbedTable};
ghost use Rattle.plans.specs.Forms.{room_of as room_of_unit};
ghost use Rattle.mig_base.specs.Among.{Among};
ghost use Rattle.plans.specs.FirstOf.{AreEach};
ghost use Rattle.plans.specs.declared.placing.Placing.{Placing as PlacedAs};
ghost use Rattle.plans.specs.Placings.{absorbed_units};
ghost use Rattle.fit.specs.Parts.{AreParts, AreAllParts, form_width as width_of_form, control_width as width_of_control, made_in, is_form_over as form_over, is_control_over as control_over};

use crate::placed::Placed;
use board::Board;
use forms::{Absorbed, Control, Form, Products, Room, control_of, form_of, is_registered, room_on};
use mig_base::{Items, Literal, NoMemory, Part};
use plans::Placing;
use std::alloc::Global;

/// What the parts of a placed unit come to on its cell.
#[derive(Drop)]
pub(crate) struct UnitParts {
    pub(crate) logic: Form,
    pub(crate) enable: Control,
    pub(crate) reset: Control,
    pub(crate) preset: Control,
}

/// What the parts of all placed units come to, under units that may be absorbed. Fails for want of memory alone.
pub(crate) fn reckon(
    alloc: Global,
    board: &Board,
    placed: &Placed,
    absorbed: &[u32],
) -> Result<Vec<UnitParts>, NoMemory>
    requires board { board.now ≡ placed.now.board.now }
    requires absorbed { absorbed.now ≡ absorbed_units placed.now.board.now placed.now.plan.now }
    requires absorbable { AreAbsorbable board.now absorbed.now }
    ensures { IfOk result (λ parts. AreAllParts placed.now.board.now placed.now.plan.now parts.items) }
{
    let _units = board.units();
    let absorbed = Absorbed::new(alloc, board, absorbed)?;
    reckon_units(alloc, &absorbed, placed.units)
}

fn reckon_units(
    alloc: Global,
    absorbed: &Absorbed,
    units: &[Placing],
) -> Result<Vec<UnitParts>, NoMemory>
    requires table { IsAbsorbedTable absorbed.now.board.now absorbed.now.units.now absorbed.now.nets }
    requires within { (x : PlacedAs) → Among x units.now → x.unit < length (equations_of absorbed.now.board.now).units }
    ensures { IfOk result (λ parts. AreEach (AreParts absorbed.now.board.now absorbed.now.units.now) units.now parts.items) }
{
    let mut all = Vec::with_capacity(alloc, units.len())?;
    for unit in units {
        all.push(parts_of(alloc, absorbed, unit)?)?;
    }
    Ok(all)
}

fn parts_of(alloc: Global, absorbed: &Absorbed, unit: &Placing) -> Result<UnitParts, NoMemory>
    requires table { IsAbsorbedTable absorbed.now.board.now absorbed.now.units.now absorbed.now.nets }
    requires unit { unit.now.unit < length (equations_of absorbed.now.board.now).units }
    ensures { IfOk result (AreParts absorbed.now.board.now absorbed.now.units.now unit.now) }
{
    let room = room_of(absorbed.board, unit);
    let logic = form_of(alloc, absorbed, unit.unit, &room)?;
    let enable = control_of(alloc, absorbed, unit.unit, Part::Enable)?;
    let reset = control_of(alloc, absorbed, unit.unit, Part::Reset)?;
    let preset = control_of(alloc, absorbed, unit.unit, Part::Preset)?;
    Ok(UnitParts {
        logic,
        enable,
        reset,
        preset,
    })
}

/// What its cell offers a placed unit.
pub(crate) fn room_of(board: &Board, unit: &Placing) -> Room
    ensures { result ≡ room_of_unit board.now unit.now }
{
    let chip = unit.chip;
    room_on(
        chip.kind,
        chip.mode,
        unit.pin,
        is_registered(board, unit.unit),
    )
}

/// The number of variables of Logic that has too many.
pub(crate) fn form_width(form: &Form) -> Option<u32>
    ensures { result ≡ width_of_form form.now }
{
    match form {
        Form::Wide { count } => Some(*count),
        Form::Fits { .. } | Form::PrimesOver | Form::TermsOver { .. } => None,
    }
}

/// The number of variables of another part that has too many.
pub(crate) fn control_width(control: &Control) -> Option<u32>
    ensures { result ≡ width_of_control control.now }
{
    match control {
        Control::Wide { count } => Some(*count),
        Control::Made { .. } | Control::PrimesOver => None,
    }
}

/// Whether no form of Logic fits, and an allowed cover has too many primes.
pub(crate) fn is_form_over(form: &Form) -> bool
    ensures { result ≡ form_over form.now }
{
    matches!(form, Form::PrimesOver)
}

/// Whether the cover of another part has too many primes.
pub(crate) fn is_control_over(control: &Control) -> bool
    ensures { result ≡ control_over control.now }
{
    matches!(control, Control::PrimesOver)
}
