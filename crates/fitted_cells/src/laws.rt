ghost use Rattle.fitted_cells.specs.FittedCells.{PlansAreBuiltWell};

/// The new chips of a plan without breach have cells that some fuses make, and their wiring and the plan have a text.
pub fn plans_are_built_well()
    ensures { PlansAreBuiltWell }
{}
