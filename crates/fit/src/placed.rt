ghost use Rattle.std.specs.Prelude.{◌≡◌, ◌<◌, ◌&&◌, length, slice_get, option_and_then, IfSome};
ghost use Rattle.std.specs.List.{position};
ghost use Rattle.plans.specs.Forms.{has_register};
ghost use Rattle.plans.specs.Placings.{placings, is_on};
ghost use Rattle.plans.specs.UnitBreaches.{first_on};

use board::Board;
use forms::is_registered;
use mig_base::Plan;
use plans::Placing;

/// The units that a plan places, in unit order.
#[derive(Drop)]
pub(crate) struct Placed<'a> {
    pub(crate) board: &'a Board,
    pub(crate) plan: &'a Plan,
    pub(crate) units: &'a [Placing],
    ghost are: { units.now ≡ placings board.now plan.now },
}

impl<'a> Placed<'a> {
    pub(crate) fn new(board: &'a Board, plan: &'a Plan, units: &'a [Placing]) -> Placed<'a>
        requires { units.now ≡ placings board.now plan.now }
        ensures board { result.board.now ≡ board.now }
        ensures plan { result.plan.now ≡ plan.now }
        ensures units { result.units.now ≡ units.now }
    {
        Placed { board, plan, units }
    }

    /// The place among these of the first registered unit of a unit's chip.
    pub(crate) fn first_on(&self, unit: &Placing) -> Option<usize>
        ensures first { option_and_then (slice_get self.now.units.now) result ≡ first_on self.now.board.now self.now.plan.now unit.now }
        ensures within { IfSome result (λ i. i < length self.now.units.now) }
    {
        first_place(self.board, self.units, unit)
    }
}

/// The place of the first of these units that is registered on a unit's chip.
fn first_place(board: &Board, units: &[Placing], unit: &Placing) -> Option<usize>
    ensures place { result ≡ position (λ y. is_on unit.now.chip.name y && has_register board.now y.unit) units.now }
    ensures within { IfSome result (λ i. i < length units.now) }
{
    units
        .iter()
        .position(|other| is_registered_with(board, unit, other))
}

/// Whether a unit is on the chip of another, and registered.
fn is_registered_with(board: &Board, unit: &Placing, other: &Placing) -> bool
    ensures { result ≡ (is_on unit.now.chip.name other.now && has_register board.now other.now.unit) }
{
    other.chip.name.bytes() == unit.chip.name.bytes() && is_registered(board, other.unit)
}
