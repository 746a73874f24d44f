//! Each board of a wiring and chips is wired as boards are: its units, nets, ports and registers belong together.
#![tactic(auto)]

ghost use Rattle.std.specs.Prelude.{List};
ghost use Rattle.std.specs.List.{AllByRecursion};
ghost use Rattle.mig_base.specs.declared.cells.ChipCells.{ChipCells};
ghost use Rattle.mig_base.specs.declared.nets.Net.{Net};
ghost use Rattle.mig_base.specs.Boards.{circuit};
ghost use Rattle.mig_base.specs.Given.{IsGiven};
ghost use Rattle.mig_base.specs.WellFormed.{IsWellFormed};
ghost use Rattle.fitting_levels.specs.Wired.{IsWired};

/// Each board of a wiring and chips whose cells are well formed is wired as boards are.
pub fn boards_are_wired()
    ensures { (net : Net) (chips : List ChipCells) → AllByRecursion IsWellFormed chips → IsWired (circuit net chips) }
{}

/// Each board of given cells is wired as boards are.
pub fn given_boards_are_wired()
    ensures { (net : Net) (chips : List ChipCells) → IsGiven net chips → IsWired (circuit net chips) }
{}
