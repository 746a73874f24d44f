//! The new chips of a plan without breach place each unit once.
#![tactic(auto)]

ghost use Rattle.std.specs.Prelude.{List};
ghost use Rattle.mig_base.specs.declared.plans.Plan.{Plan};
ghost use Rattle.board.specs.Joined.{Joined};
ghost use Rattle.new_board.specs.NewChip.{NewChip};
ghost use Rattle.plans.specs.Placings.{absorbed_units};
ghost use Rattle.plans.specs.Breaches.{HasNoBreach};
ghost use Rattle.plans.specs.Fitting.{AreNewChips};
ghost use Rattle.planned_nets.specs.PlacedOnce.{ArePlacedOnce};

/// On the new chips of a plan without breach no unit stands twice, none that is absorbed, and a unit that is never enabled stays so.
pub fn plans_place_once()
    ensures { (b : Joined) (p : Plan) (chips : List NewChip) → HasNoBreach b p → AreNewChips b p chips → ArePlacedOnce b (absorbed_units b p) chips }
{}
