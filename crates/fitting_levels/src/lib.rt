//! Settled levels fit the units of a board, as literals read them: alias nets, absorbed nets, constants and pure nodes.
#![tactic(auto)]

ghost use Rattle.std.specs.Prelude.{ℕ, List};
ghost use Rattle.mig_base.specs.declared.circuit.Circuit.{Circuit};
ghost use Rattle.mig_base.specs.declared.circuit.Levels.{Levels};
ghost use Rattle.mig_base.specs.declared.levels.Level.{Level};
ghost use Rattle.mig_base.specs.Accepted.{IsAccepted};
ghost use Rattle.mig_base.specs.Among.{Among};
ghost use Rattle.mig_base.specs.Values.{source_level};
ghost use Rattle.structure.specs.Absorbable.{IsAbsorbable};
ghost use Rattle.level_laws.specs.PureLevels.{HasPureLevels};
ghost use Rattle.level_laws.specs.Settled.{IsSettled};
ghost use Rattle.fitting_levels.specs.Fitting.{AreFitting};
ghost use Rattle.fitting_levels.specs.Wired.{IsWired};

/// Settled levels of an accepted board with pure nodes at 0 or 1, as literals read them, fit each other: alias nets have the levels of their
/// registers and absorbed nets those that their units give.
pub fn settled_levels_fit()
    ensures { (c : Circuit) (absorbed : List ℕ) (stored inputs : List Level) (l : Levels) → IsAccepted c → IsWired c → ((u : ℕ) → Among u absorbed → IsAbsorbable c u) →
        IsSettled c stored inputs l → HasPureLevels c l → AreFitting c absorbed (source_level l) }
{}
