//! What the laws on joined parts speak of is always there: settled levels fit each other, and so do some levels for all levels of
//! the variables of a cone.
#![tactic(auto)]

ghost use Rattle.std.specs.Prelude.{ℕ, ◌≡◌, Bool, List, map};
ghost use Rattle.bdd.specs.Tree.{Point};
ghost use Rattle.mig_base.specs.declared.levels.Level.{Level};
ghost use Rattle.mig_base.specs.declared.circuit.Levels.{Levels};
ghost use Rattle.mig_base.specs.declared.nets.Var.{Var};
ghost use Rattle.mig_base.specs.declared.nets.VarProduct.{VarProduct};
ghost use Rattle.mig_base.specs.declared.plans.Part.{Part};
ghost use Rattle.mig_base.specs.Accepted.{IsAccepted};
ghost use Rattle.mig_base.specs.Given.{IsGiven};
ghost use Rattle.mig_base.specs.Values.{inverted};
ghost use Rattle.board.specs.Joined.{Joined, equations_of};
ghost use Rattle.level_laws.specs.PureLevels.{HasPureLevels};
ghost use Rattle.level_laws.specs.Settled.{IsSettled};
ghost use Rattle.level_laws.specs.VariableLevels.{Levelling};
ghost use Rattle.product_levels.specs.PartLevels.{part_value, variable_level};
ghost use Rattle.rails.specs.Variables.{all_rails};
ghost use Rattle.rails.specs.Levels.{value_under};
ghost use Rattle.joiner.specs.AbsorbedNets.{AreAbsorbable};
ghost use Rattle.joiner.specs.Joined.{IsCone, unit_part};
ghost use Rattle.joiner.specs.JoinedLevels.{LevelsAbsorbed, HasLevels};
ghost use Rattle.joiner.specs.JoinedPart.{HasJoinedValue};

/// In settled levels of an accepted board of given cells each absorbed net has the level that its unit gives.
pub fn settled_levels_are_absorbed()
    ensures { (b : Joined) (absorbed : List ℕ) (stored inputs : List Level) (l : Levels) → IsGiven b.net b.chips → IsAccepted (equations_of b) →
        AreAbsorbable b absorbed → IsSettled (equations_of b) stored inputs l → LevelsAbsorbed b absorbed (variable_level b l) }
{}

/// Whatever levels the variables of a cone have on an accepted board, some levels of all variables fit them.
pub fn fitting_levels_exist()
    ensures { (b : Joined) (absorbed : List ℕ) (terms : List VarProduct) (vars : List (Var × Bool)) (levels : List Level) → IsAccepted (equations_of b) →
        AreAbsorbable b absorbed → IsCone b absorbed terms vars → (l : Levelling) × HasLevels vars levels l × LevelsAbsorbed b absorbed l }
{}

/// So in settled levels whose pure nodes are 0 or 1 the value of a joined part, under the levels of its variables, is that of the
/// part's rows.
pub fn joined_values_are_settled()
    ensures { (b : Joined) (absorbed : List ℕ) (stored inputs : List Level) (l : Levels) (u : ℕ) (part : Part) (vars : List (Var × Bool)) (f : Point → Bool) →
        IsGiven b.net b.chips → IsAccepted (equations_of b) → AreAbsorbable b absorbed → IsSettled (equations_of b) stored inputs l → HasPureLevels (equations_of b) l →
        IsCone b absorbed (unit_part b u part).terms vars → HasJoinedValue b absorbed (unit_part b u part) vars f →
        value_under (all_rails vars) f (map (λ (w : Var × Bool). variable_level b l w.0) vars) ≡ inverted (unit_part b u part).low (part_value (equations_of b) l u part) }
{}
