//! The cells that fuses make are well formed.
#![tactic(auto)]

ghost use Rattle.mig_base.specs.declared.cells.ChipCells.{ChipCells};
ghost use Rattle.mig_base.specs.declared.nets.ChipLine.{ChipLine};
ghost use Rattle.mig_base.specs.Given.{IsMade};
ghost use Rattle.mig_base.specs.WellFormed.{IsWellFormed};

/// The cells that some fuses of a chip's kind make are well formed: each macrocell has a form, inversions, an enable and
/// terms that its kind and mode can have, and each product is one that a row can hold.
pub fn made_cells_are_well_formed()
    ensures { (line : ChipLine) (cells : ChipCells) → IsMade line cells → IsWellFormed cells }
{}
