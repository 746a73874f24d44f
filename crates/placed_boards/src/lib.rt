//! A board that places units of another one, row by row, carries it.
#![tactic(auto)]

ghost use Rattle.std.specs.Prelude.{ℕ, Bool, List};
ghost use Rattle.mig_base.specs.declared.circuit.Circuit.{Circuit};
ghost use Rattle.mig_base.specs.Accepted.{IsAccepted};
ghost use Rattle.fitting_levels.specs.Wired.{IsWired};
ghost use Rattle.carried_boards.specs.Carries.{Carries, Numbers};
ghost use Rattle.placed_boards.specs.Places.{Places, kept_of};

/// A board that places units of an accepted one, row by row, carries it.
pub fn placing_boards_carry()
    ensures { (a b : Circuit) (absorbed : List ℕ) (live : ℕ → Bool) (owner : ℕ → ℕ) (old : Numbers) (seen : ℕ → Bool) → IsAccepted a → IsWired a → IsWired b →
        Places a b absorbed live owner old seen → Carries a b absorbed old (kept_of a b live owner old seen) }
{}
