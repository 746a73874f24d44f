//! Laws on settled levels, steps and runs: there are always some and no others, boards that follow others show the same,
//! and pure nodes are 0 or 1.
#![tactic(auto)]

ghost use Rattle.std.specs.Prelude.{ℕ, ◌≡◌, List, Option, IfSome, Some, None, slice_get};
ghost use Rattle.std.specs.List.{AllByRecursion};
ghost use Rattle.mig_base.specs.declared.cells.ChipCells.{ChipCells};
ghost use Rattle.mig_base.specs.declared.levels.Level.{Level};
ghost use Rattle.mig_base.specs.declared.circuit.Circuit.{Circuit};
ghost use Rattle.mig_base.specs.declared.circuit.Levels.{Levels};
ghost use Rattle.mig_base.specs.declared.circuit.Read.{Read};
ghost use Rattle.mig_base.specs.declared.circuit.Register.{Register};
ghost use Rattle.mig_base.specs.declared.nets.Net.{Net};
ghost use Rattle.mig_base.specs.Accepted.{IsAccepted, Walk};
ghost use Rattle.mig_base.specs.Boards.{circuit};
ghost use Rattle.mig_base.specs.Levels.{level_at};
ghost use Rattle.mig_base.specs.Ranked.{Ranked};
ghost use Rattle.level_laws.specs.Settled.{IsSettled};
ghost use Rattle.level_laws.specs.Runs.{IsStep, IsRun, clock_level, power_up};
ghost use Rattle.level_laws.specs.SameBehaviour.{IsLawful};
ghost use Rattle.level_laws.specs.PureLevels.{DriversAreUnits, HasPureStored, HasPureLevels, ShowsPure, LeadsTo, IsPureAfter};

/// A board whose nodes have ranks has settled levels.
pub fn settling_exists()
    ensures { (c : Circuit) (rank : Read → ℕ) (top : ℕ) (stored inputs : List Level) → Ranked c rank top → (l : Levels) × IsSettled c stored inputs l }
{}

/// A board whose nodes have ranks has no other settled levels.
pub fn settling_is_unique()
    ensures { (c : Circuit) (rank : Read → ℕ) (top : ℕ) (stored inputs : List Level) (l m : Levels) → Ranked c rank top →
        IsSettled c stored inputs l → IsSettled c stored inputs m → l ≡ m }
{}

/// An accepted board's nodes have ranks.
pub fn accepted_boards_have_ranks()
    ensures { (c : Circuit) → IsAccepted c → (rank : Read → ℕ) × (top : ℕ) × Ranked c rank top }
{}

/// Ranks rule out that a node reads itself over any way.
pub fn ranks_rule_out_loops()
    ensures { (c : Circuit) (rank : Read → ℕ) (top : ℕ) → Ranked c rank top → (v : Read) (n : ℕ) → Walk c n v v → ⊥ }
{}

/// From power-up, every list of inputs of a board whose nodes have ranks has a run.
pub fn run_exists()
    ensures { (c : Circuit) (rank : Read → ℕ) (top : ℕ) (inputs : List (List Level)) → Ranked c rank top → (shown : List (List Level)) × IsRun c inputs shown }
{}

/// It has no other.
pub fn run_is_unique()
    ensures { (c : Circuit) (rank : Read → ℕ) (top : ℕ) (inputs shown_a shown_b : List (List Level)) → Ranked c rank top →
        IsRun c inputs shown_a → IsRun c inputs shown_b → shown_a ≡ shown_b }
{}

/// On the board of a wiring and chips each driver is a unit.
pub fn drivers_are_units()
    ensures { (net : Net) (chips : List ChipCells) → DriversAreUnits (circuit net chips) }
{}

/// On an accepted board whose pure registers store 0 or 1, all pure nets and all visible Q of pure registers settle at 0
/// or 1 under lawful inputs.
pub fn settled_levels_are_pure()
    ensures { (c : Circuit) (stored inputs : List Level) (l : Levels) → IsAccepted c → DriversAreUnits c → HasPureStored c stored → IsLawful c inputs →
        IsSettled c stored inputs l → HasPureLevels c l }
{}

/// After a step from such stored levels and lawful last inputs, pure registers store 0 or 1 again.
pub fn steps_stay_pure()
    ensures { (c : Circuit) (stored : List Level) (last : Option (List Level)) (inputs now : List Level) → IsAccepted c → DriversAreUnits c → HasPureStored c stored →
        IfSome last (IsLawful c) → IsStep c stored last inputs now → HasPureStored c now }
{}

/// At power-up pure registers store 0.
pub fn power_up_is_pure()
    ensures { (c : Circuit) → HasPureStored c (power_up c) }
{}

/// Whatever steps under lawful inputs lead to from power-up, pure nodes are 0 or 1 there.
pub fn reached_levels_are_pure()
    ensures { (c : Circuit) (inputs : List (List Level)) (stored : List Level) (last : Option (List Level)) → IsAccepted c → DriversAreUnits c → AllByRecursion (IsLawful c) inputs →
        LeadsTo c (power_up c) None inputs stored last → IsPureAfter c stored last }
{}

/// A run from power-up under lawful inputs shows 0 or 1 at each pure port after each step.
pub fn runs_show_pure_levels()
    ensures { (c : Circuit) (inputs showns : List (List Level)) → IsAccepted c → DriversAreUnits c → AllByRecursion (IsLawful c) inputs →
        IsRun c inputs showns → AllByRecursion (ShowsPure c) showns }
{}

/// In settled levels of an accepted board the clock net of each register has the level by which it is clocked: the handed
/// one, or that of a constant.
pub fn clock_levels_are_handed()
    ensures { (c : Circuit) (stored inputs : List Level) (l : Levels) (k : ℕ) (r : Register) → IsAccepted c → IsSettled c stored inputs l → slice_get c.registers k ≡ Some r →
        level_at l.nets r.clock ≡ clock_level c inputs r.clock }
{}
