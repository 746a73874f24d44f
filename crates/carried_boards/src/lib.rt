//! A board that carries another one, net by net and register by register, is accepted and shows the same.
#![tactic(auto)]

ghost use Rattle.std.specs.Prelude.{ℕ, List};
ghost use Rattle.mig_base.specs.declared.circuit.Circuit.{Circuit};
ghost use Rattle.mig_base.specs.declared.circuit.Read.{Read};
ghost use Rattle.mig_base.specs.Accepted.{IsAccepted};
ghost use Rattle.mig_base.specs.Ranked.{Ranked};
ghost use Rattle.level_laws.specs.SameBehaviour.{ShowsAlike};
ghost use Rattle.fitting_levels.specs.Wired.{IsWired};
ghost use Rattle.carried_boards.specs.Carries.{Carries, Kept, Numbers};

/// A board that carries an accepted one whose nodes have ranks is accepted.
pub fn carrying_boards_are_accepted()
    ensures { (a b : Circuit) (absorbed : List ℕ) (old : Numbers) (kept : Kept) (rank : Read → ℕ) (top : ℕ) → Carries a b absorbed old kept →
        IsAccepted a → Ranked a rank top → IsAccepted b }
{}

/// A board that carries an accepted one whose nodes have ranks shows the same.
pub fn carrying_boards_show_alike()
    ensures { (a b : Circuit) (absorbed : List ℕ) (old : Numbers) (kept : Kept) (rank : Read → ℕ) (top : ℕ) → IsAccepted a → IsWired a →
        Carries a b absorbed old kept → Ranked a rank top → ShowsAlike a b }
{}
