//! The new board of a plan without breach carries the old one: it is accepted, shows the same, and the two have a proving matching.
#![tactic(auto)]

ghost use Rattle.std.specs.Prelude.{◌≡◌, ℕ, List, length};
ghost use Rattle.mig_base.specs.declared.plans.Plan.{Plan};
ghost use Rattle.mig_base.specs.Accepted.{IsAccepted};
ghost use Rattle.mig_base.specs.Given.{IsGiven};
ghost use Rattle.board.specs.Joined.{Joined, equations_of};
ghost use Rattle.level_laws.specs.SameBehaviour.{IsSame, ShowsAlike};
ghost use Rattle.matchings.specs.Matchings.{IsProving};
ghost use Rattle.matchings.specs.Pairs.{registers_of_both};
ghost use Rattle.new_board.specs.NewChip.{NewChip};
ghost use Rattle.plan_text.specs.PlanText.{IsPlan};
ghost use Rattle.plans.specs.Fitting.{AreNewChips, new_board};
ghost use Rattle.plans.specs.Breaches.{HasNoBreach};

/// The new board of a plan without breach for an accepted board is given by a wiring and fuses, is accepted, shows the same, step by
/// step and by the names of its ports, and has a proving matching with the old one, with a class for each register of both.
pub fn plans_carry_boards()
    ensures given { (b : Joined) (p : Plan) (chips : List NewChip) → IsGiven b.net b.chips → IsPlan p → HasNoBreach b p → AreNewChips b p chips →
        IsGiven (new_board b chips).net (new_board b chips).chips }
    ensures accepted { (b : Joined) (p : Plan) (chips : List NewChip) → IsGiven b.net b.chips → IsAccepted (equations_of b) → IsPlan p → HasNoBreach b p → AreNewChips b p chips →
        IsAccepted (equations_of (new_board b chips)) }
    ensures same { (b : Joined) (p : Plan) (chips : List NewChip) → IsGiven b.net b.chips → IsAccepted (equations_of b) → IsPlan p → HasNoBreach b p → AreNewChips b p chips →
        ShowsAlike (equations_of b) (equations_of (new_board b chips)) }
    ensures shown { (b : Joined) (p : Plan) (chips : List NewChip) → IsGiven b.net b.chips → IsAccepted (equations_of b) → IsPlan p → HasNoBreach b p → AreNewChips b p chips →
        IsSame b.net b.chips (new_board b chips).net (new_board b chips).chips }
    ensures proving { (b : Joined) (p : Plan) (chips : List NewChip) → IsGiven b.net b.chips → IsAccepted (equations_of b) → IsPlan p → HasNoBreach b p → AreNewChips b p chips →
        (classes : List ℕ) × (length classes ≡ registers_of_both b (new_board b chips)) × IsProving b (new_board b chips) classes }
{}
