//! The files of a new board: the fuse texts of its chips, which are read back as the same cells, its plan and its wiring.
#![tactic(auto)]

mod writing;

ghost use Rattle.std.specs.Prelude.{◌≡◌, true, IsTrue, Ok, IfOk};
ghost use Rattle.mig_base.specs.declared.cells.ChipCells.{ChipCells as Cells};
ghost use Rattle.mig_base.specs.Cells.{cells_of};
ghost use Rattle.mig_base.specs.DeviceTables.{is_gal, is_v8 as v8_kind};
ghost use Rattle.mig_base.specs.WellFormed.{IsWellFormed};
ghost use Rattle.mig_base.specs.WrittenFuses.{written_fuses};
ghost use Rattle.new_board.specs.Files.{chip_fuses as fuses_for};
ghost use Rattle.built_files.specs.ReadBack.{IsReadBack};

use jed_write::jed_bytes;
use mig_base::{ChipCells, Fuses, Kind, NoMemory};
use std::alloc::Global;
pub use writing::{FuseFile, NewFiles, written_files};

/// Whether a GAL has the fuse map of a GAL16V8.
fn is_v8(kind: Kind) -> bool
    ensures { result ≡ v8_kind kind }
{
    matches!(kind, Kind::Gal16V8 | Kind::Gal20V8)
}

/// The fuses of a GAL's cells, by the fuse map of its kind. `cells` of them are the same cells again.
pub fn chip_fuses(alloc: Global, cells: &ChipCells) -> Result<Fuses, NoMemory>
    requires kind { IsTrue (is_gal cells.now.kind) }
    requires well_formed { IsWellFormed cells.now }
    ensures written { IfOk result (λ fuses. fuses.bits ≡ fuses_for cells.now) }
    ensures again { IfOk result (λ fuses. cells_of cells.now.kind fuses.bits ≡ Ok cells.now) }
{
    if is_v8(cells.kind) {
        return v8::fuses_of(alloc, cells);
    }
    v22::fuses_of(alloc, cells)
}

/// The fuse text of a GAL's cells.
pub fn fuse_text(alloc: Global, cells: &ChipCells) -> Result<Vec<u8>, NoMemory>
    requires kind { IsTrue (is_gal cells.now.kind) }
    requires well_formed { IsWellFormed cells.now }
    ensures { IfOk result (λ text. text.items ≡ written_fuses cells.now.kind (fuses_for cells.now)) }
{
    let fuses = chip_fuses(alloc, cells)?;
    jed_bytes(alloc, cells.kind, &fuses)
}

/// The fuse text of a GAL's well-formed cells is short enough for a file, and makes the same cells again.
pub fn fuse_files_read_back()
    ensures { (c : Cells) → IsTrue (is_gal c.kind) → IsWellFormed c → IsReadBack c }
{}
