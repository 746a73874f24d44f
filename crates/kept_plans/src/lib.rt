//! A plan without breach makes chips that keep the parts of their units, and places all live units.
#![tactic(auto)]

ghost use Rattle.std.specs.Prelude.{Bool, List, false, slice_index_or};
ghost use Rattle.mig_base.specs.declared.plans.Plan.{Plan};
ghost use Rattle.mig_base.specs.Given.{IsGiven};
ghost use Rattle.structure.specs.Live.{IsLiveness};
ghost use Rattle.board.specs.Joined.{Joined, equations_of};
ghost use Rattle.new_board.specs.NewChip.{NewChip};
ghost use Rattle.plan_text.specs.PlanText.{IsPlan};
ghost use Rattle.plans.specs.Placings.{absorbed_units};
ghost use Rattle.plans.specs.Fitting.{AreNewChips};
ghost use Rattle.plans.specs.Breaches.{HasNoBreach};
ghost use Rattle.planned_boards.specs.Planned.{ArePlanned};
ghost use Rattle.planned_parts.specs.KeptChips.{AreKeptChips};

/// The new chips of a plan without breach have cells that some fuses make, rows of the parts of their old units that read no absorbed
/// net, and what the registered units of a chip have in common.
pub fn plans_keep_chips()
    ensures { (b : Joined) (p : Plan) (chips : List NewChip) → IsGiven b.net b.chips → IsPlan p → HasNoBreach b p → AreNewChips b p chips →
        AreKeptChips b (absorbed_units b p) chips }
{}

/// A plan without breach absorbs or places all live units.
pub fn plans_place_live_units()
    ensures { (b : Joined) (p : Plan) (chips : List NewChip) (live : List Bool) → IsGiven b.net b.chips → IsPlan p → HasNoBreach b p → AreNewChips b p chips →
        IsLiveness (equations_of b) live → ArePlanned b (absorbed_units b p) (λ u. slice_index_or live u false) chips }
{}
