//! A board and one that carries it have a proving matching.
#![tactic(auto)]

ghost use Rattle.std.specs.Prelude.{ℕ, ◌≡◌, List, filter, length};
ghost use Rattle.mig_base.specs.declared.circuit.Read.{Read};
ghost use Rattle.mig_base.specs.Accepted.{IsAccepted};
ghost use Rattle.mig_base.specs.Boards.{is_port};
ghost use Rattle.mig_base.specs.Ranked.{Ranked};
ghost use Rattle.board.specs.Joined.{Joined, equations_of};
ghost use Rattle.matchings.specs.Matchings.{IsProving};
ghost use Rattle.matchings.specs.Pairs.{registers_of_both};
ghost use Rattle.fitting_levels.specs.Wired.{IsWired};
ghost use Rattle.carried_boards.specs.Carries.{Carries, Kept, Numbers};
ghost use Rattle.carried_matchings.specs.CarriedClasses.{carried_classes};

/// The matching that puts each kept register with its old one, and each other register alone, has a class for each register,
/// and is proving where the boards have the same port lines.
pub fn carrying_boards_match()
    ensures count { (a b : Joined) (old : Numbers) (kept : Kept) →
        length (carried_classes (equations_of a) (equations_of b) old kept) ≡ registers_of_both a b }
    ensures proving { (a b : Joined) (absorbed : List ℕ) (old : Numbers) (kept : Kept) (rank : Read → ℕ) (top : ℕ) → filter is_port a.net.nets ≡ filter is_port b.net.nets →
        Carries (equations_of a) (equations_of b) absorbed old kept → IsAccepted (equations_of a) → IsWired (equations_of a) → IsWired (equations_of b) →
        Ranked (equations_of a) rank top → IsProving a b (carried_classes (equations_of a) (equations_of b) old kept) }
{}
