ghost use Rattle.std.specs.Prelude.{◌≡◌, ◌≤◌, ◌+◌};
ghost use Rattle.mig_base.specs.DeviceTables.{array_width, rows_22};
ghost use Rattle.mig_base.specs.Cells.{array_size as size_of_array};

use mig_base::{Kind, pins};

/// The rows of an array, on every chip but a 22V10.
pub const ROWS: usize = 64;

/// The rows of a macrocell, on every chip but a 22V10.
pub const CELL_ROWS: usize = 8;

/// The row of the asynchronous reset of a 22V10.
pub const RESET: usize = 0;

/// The row of the synchronous preset of a 22V10.
pub const PRESET: usize = 131;

/// The bits of the signature of a GAL.
pub const SIGNATURE: usize = 64;

/// The number of columns of the array.
pub fn width(kind: Kind) -> usize
    ensures { result ≡ array_width kind }
{
    match kind {
        Kind::Gal22V10 | Kind::Gal22V10Q => 44,
        _ => { if pins(kind) == 20 { 32 } else { 40 } }
    }
}

/// The fuses of an array of 64 rows.
pub fn array_size(kind: Kind) -> usize
    ensures { result ≡ size_of_array kind }
{
    ROWS * width(kind)
}

/// The rows of a macrocell of a 22V10: the first one is its enable, so many terms follow.
#[derive(Clone, Copy)]
pub struct CellRows {
    pub first: usize,
    pub terms: usize,
}

/// The rows of the macrocell of a pin (data sheets of the GAL22V10).
pub fn rows_of(pin: u8) -> CellRows
    ensures first { result.first ≡ (rows_22 pin).0 }
    ensures terms { result.terms ≡ (rows_22 pin).1 }
    ensures within { result.first + result.terms ≤ 130 }
{
    let (first, terms) = match pin {
        23 => (1, 8),
        22 => (10, 10),
        21 => (21, 12),
        20 => (34, 14),
        19 => (49, 16),
        18 => (66, 16),
        17 => (83, 14),
        16 => (98, 12),
        15 => (111, 10),
        _ => (122, 8),
    };
    CellRows { first, terms }
}
