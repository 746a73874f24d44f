//! A small board, worked out by the definitions alone: that they give what is expected is seen by computing them.

ghost use Rattle.std.specs.Prelude.{◌≡◌, Ok, ◌∷◌, []};
ghost use Rattle.mig_base.specs.FuseText.{fuses_of_text};
ghost use Rattle.mig_base.specs.BoardText.{net_of_text};
ghost use Rattle.mig_base.specs.Cells.{cells_of};
ghost use Rattle.mig_base.specs.Boards.{circuit};
ghost use Rattle.mig_base.specs.declared.kinds.Kind.TheVariants.{Pal16L8};
ghost use Rattle.sample_boards.specs.TwoRegisters as registers;
ghost use Rattle.sample_boards.specs.OneGate.{board_file, fuse_file, wiring, fuses, chip, equations};

/// The fuses of the fuse file.
pub fn fuse_file_has_fuses()
    ensures { fuses_of_text fuse_file ≡ Ok fuses }
{}

/// The wiring of the board file.
pub fn board_file_has_wiring()
    ensures { net_of_text board_file ≡ Ok wiring }
{}

/// The cells of the fuses.
pub fn fuses_make_chip()
    ensures { cells_of Pal16L8 fuses ≡ Ok chip }
{}

/// The equations of the wiring and the chip.
pub fn board_has_equations()
    ensures { circuit wiring (chip ∷ []) ≡ equations }
{}

/// The equations of a board with registers, reset and preset; one register is mute.
pub fn registers_have_equations()
    ensures { circuit registers.wiring (registers.chip ∷ []) ≡ registers.equations }
{}
