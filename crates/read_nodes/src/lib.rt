//! All that the rows of a board read are nodes of the board.
#![tactic(auto)]

ghost use Rattle.std.specs.Prelude.{List};
ghost use Rattle.mig_base.specs.declared.cells.ChipCells.{ChipCells};
ghost use Rattle.mig_base.specs.declared.nets.Net.{Net};
ghost use Rattle.mig_base.specs.Boards.{circuit};
ghost use Rattle.mig_base.specs.Given.{IsGiven};
ghost use Rattle.read_nodes.specs.ReadsNodes.{ReadsNodes};

/// On the board of a wiring that a text can give and of cells that fuses make, all that units and registers read are
/// nodes of the board.
pub fn given_boards_read_nodes()
    ensures { (net : Net) (chips : List ChipCells) → IsGiven net chips → ReadsNodes (circuit net chips) }
{}
