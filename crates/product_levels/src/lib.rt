//! In settled levels the products of a board over variables have the values of its rows.
#![tactic(auto)]

ghost use Rattle.std.specs.Prelude.{ℕ, ◌≡◌, List};
ghost use Rattle.mig_base.specs.declared.levels.Level.{Level};
ghost use Rattle.mig_base.specs.declared.circuit.Levels.{Levels};
ghost use Rattle.mig_base.specs.declared.plans.Part.{Part};
ghost use Rattle.mig_base.specs.Accepted.{IsAccepted};
ghost use Rattle.mig_base.specs.Given.{IsGiven};
ghost use Rattle.structure.specs.Products.{part_products};
ghost use Rattle.board.specs.Joined.{Joined, equations_of};
ghost use Rattle.board.specs.UnitLists.{register_units};
ghost use Rattle.level_laws.specs.Settled.{IsSettled};
ghost use Rattle.level_laws.specs.VariableLevels.{terms_level};
ghost use Rattle.product_levels.specs.PartLevels.{variable_level, part_value};

/// In settled levels of an accepted board the products of each part over variables have the value of the part's rows.
pub fn products_have_levels()
    ensures { (b : Joined) (stored inputs : List Level) (l : Levels) (u : ℕ) (part : Part) → IsGiven b.net b.chips → IsAccepted (equations_of b) →
        IsSettled (equations_of b) stored inputs l →
        terms_level (variable_level b l) (part_products (equations_of b) (register_units b.chips) u part) ≡ part_value (equations_of b) l u part }
{}
