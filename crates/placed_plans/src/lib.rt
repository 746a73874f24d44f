//! The new board of a plan without breach places the units of the old one.
#![tactic(auto)]

ghost use Rattle.std.specs.Prelude.{ℕ, Bool, List, false, slice_index_or};
ghost use Rattle.mig_base.specs.declared.plans.Plan.{Plan};
ghost use Rattle.mig_base.specs.Accepted.{IsAccepted};
ghost use Rattle.mig_base.specs.Given.{IsGiven};
ghost use Rattle.structure.specs.Live.{IsLiveness};
ghost use Rattle.board.specs.Joined.{Joined, equations_of};
ghost use Rattle.new_board.specs.NewChip.{NewChip};
ghost use Rattle.plan_text.specs.PlanText.{IsPlan};
ghost use Rattle.plans.specs.Placings.{absorbed_units};
ghost use Rattle.plans.specs.Fitting.{AreNewChips, new_board};
ghost use Rattle.plans.specs.Breaches.{HasNoBreach};
ghost use Rattle.placed_boards.specs.Places.{Places};
ghost use Rattle.new_circuits.specs.NewNumbers.{is_seen, numbers_of};

/// The new board of a plan without breach, row by row, places the units of the old one, which is accepted.
pub fn plans_place_boards()
    ensures { (b : Joined) (p : Plan) (chips : List NewChip) (live : List Bool) → IsGiven b.net b.chips → IsAccepted (equations_of b) → IsPlan p → HasNoBreach b p →
        AreNewChips b p chips → IsLiveness (equations_of b) live → (owner : ℕ → ℕ) ×
        Places (equations_of b) (equations_of (new_board b chips)) (absorbed_units b p) (λ u. slice_index_or live u false) owner (numbers_of b chips) (is_seen b (absorbed_units b p) chips) }
{}
