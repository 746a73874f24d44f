//! Matchings of the registers of two boards: laws on the greatest one, and how rounds lead to it.
#![tactic(auto)]

ghost use Rattle.std.specs.Prelude.{ℕ, ◌≡◌, ◌<◌, List, Some, length, replicate};
ghost use Rattle.mig_base.specs.Accepted.{IsAccepted};
ghost use Rattle.level_laws.specs.SameBehaviour.{IsSame, SamePorts};
ghost use Rattle.board.specs.Joined.{Joined, equations_of};
ghost use Rattle.matchings.specs.Pairs.{AreTogether, registers_of_both};
ghost use Rattle.matchings.specs.Matchings.{IsInductive, IsProving, IsGreatest, HasInductive};
ghost use Rattle.level_laws.specs.SameBehaviour.{Handing};
ghost use Rattle.mig_base.specs.declared.circuit.Levels.{Levels};
ghost use Rattle.mig_base.specs.Levels.{level_at};
ghost use Rattle.level_laws.specs.Runs.{next_stored, rises};
ghost use Rattle.matchings.specs.Views.{AlwaysAlike, view_of};
ghost use Rattle.matchings.specs.Pairs.{handed, IsLawfulFor};
ghost use Rattle.matchings.specs.Clocks.{clock_name};
ghost use Rattle.matchings.specs.Edges.{AreAlike, View, raised, rises_by, stores};
ghost use Rattle.matchings.specs.Rounds.{IsParted, IsRound};

/// Boards with the same ports and a proving matching show the same under all inputs.
pub fn proving_shows_the_same()
    ensures { (a b : Joined) (classes : List ℕ) → SamePorts a.net b.net → length classes ≡ registers_of_both a b → IsProving a b classes → IsSame a.net a.chips b.net b.chips }
{}

/// One class of all registers holds together what an inductive matching does.
pub fn one_class_has_inductive()
    ensures { (a b : Joined) → HasInductive a b (replicate (registers_of_both a b) 0) }
{}

/// A round parts no two registers that an inductive matching holds together.
pub fn rounds_keep_inductive()
    ensures { (a b : Joined) (old new : List ℕ) → HasInductive a b old → IsRound a b old new → HasInductive a b new }
{}

/// Where a round parts nothing the matching is the greatest.
pub fn last_round_is_greatest()
    ensures { (a b : Joined) (classes : List ℕ) → IsAccepted (equations_of a) → IsAccepted (equations_of b) → SamePorts a.net b.net →
        HasInductive a b classes → IsRound a b classes classes → IsGreatest a b classes }
{}

/// Two registers that are alike store the same after every step.
pub fn alike_registers_store_the_same()
    ensures { (before now : Handing) (v w : View) → AreAlike before v w → stores v before now ≡ stores w before now }
{}

/// Two registers that store the same where no input changes, and where the clock of one alone rises, are alike.
pub fn others_are_parted()
    ensures { (before : Handing) (v w : View) → stores v before before ≡ stores w before before →
        ((name : List ℕ) → v.clock ≡ Some name → stores v before (raised name before) ≡ stores w before (raised name before)) →
        ((name : List ℕ) → w.clock ≡ Some name → stores v before (raised name before) ≡ stores w before (raised name before)) → AreAlike before v w }
{}

/// A clock rises exactly where its port goes from 0 to 1.
pub fn clocks_rise_by_port()
    ensures { (b : Joined) (before now : Handing) (n : ℕ) → rises (equations_of b) (handed b before) (handed b now) n ≡ rises_by (clock_name b.net n) before now }
{}

/// A register stores what its view says.
pub fn registers_store_by_view()
    ensures { (b : Joined) (l : Levels) (before now : Handing) (k : ℕ) → k < length (equations_of b).registers → length l.visible ≡ length (equations_of b).registers →
        level_at (next_stored (equations_of b) l (handed b before) (handed b now) (equations_of b).registers l.visible) k ≡ stores (view_of b l k) before now }
{}

/// Inputs stay lawful where one more port is 1.
pub fn raised_inputs_are_lawful()
    ensures { (b : Joined) (name : List ℕ) (handing : Handing) → IsLawfulFor b handing → IsLawfulFor b (raised name handing) }
{}

/// Registers of a class that are always alike are not parted.
pub fn alike_registers_stay()
    ensures { (a b : Joined) (classes : List ℕ) (i j : ℕ) → i < registers_of_both a b → j < registers_of_both a b → AreTogether classes i j →
        AlwaysAlike a b classes i j → IsParted a b classes i j → ⊥ }
{}

/// Registers that are not parted are always alike.
pub fn staying_registers_are_alike()
    ensures { (a b : Joined) (classes : List ℕ) (i j : ℕ) → i < registers_of_both a b → j < registers_of_both a b →
        (IsParted a b classes i j → ⊥) → AlwaysAlike a b classes i j }
{}
