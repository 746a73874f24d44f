ghost use Rattle.std.specs.Prelude.{◌≡◌, length, Ok, List, Bool, IfOk};
ghost use Rattle.mig_base.specs.BoardText.{net_of_text};
ghost use Rattle.mig_base.specs.Cells.{cells_of};
ghost use Rattle.mig_base.specs.Given.{AreMade, IsGiven};

use board::Board;
use chip_kinds::cells;
use jed_text::read_jed;
use mig_base::{BoardError, ChipCells, ChipLine, Fuses, Kind, Net};
use net_text::read_net;
use std::alloc::{AllocError, AllocFailed, Global};

/// Why texts give no board: the wiring's text is refused, or a fuse text is, a chip can't have its fuses, the chips are not as
/// many as the wiring has, what is told is refused as a board, or want of memory.
#[derive(Drop)]
pub enum SampleError {
    Wiring,
    Fuses,
    Chip,
    Count,
    Refused(BoardError),
    Memory,
}

impl From<AllocError> for SampleError {
    fn from(_: AllocError) -> Self {
        SampleError::Memory
    }
}

impl<T: Drop> From<AllocFailed<T>> for SampleError {
    fn from(_: AllocFailed<T>) -> Self {
        SampleError::Memory
    }
}

/// The longest board text of a sample.
const MOST_BYTES: usize = 65_536;

/// The most fuses of a chip of a sample.
const MOST_FUSES: usize = 8_192;

/// The wiring that a text says.
fn wiring(alloc: Global, text: &str) -> Result<Net, SampleError>
    ensures { IfOk result (λ net. net_of_text text.now ≡ Ok net) }
{
    if text.len() > MOST_BYTES {
        return Err(SampleError::Wiring);
    }
    match read_net(alloc, text.as_bytes()) {
        Ok(net) => Ok(net),
        Err(_) => Err(SampleError::Wiring),
    }
}

/// The cells that fuses make in a chip of this kind.
fn chip(alloc: Global, kind: Kind, fuses: &Fuses) -> Result<ChipCells, SampleError>
    ensures { IfOk result (λ made. (bits : List Bool) × (cells_of kind bits ≡ Ok made)) }
{
    if fuses.bits.items().len() > MOST_FUSES {
        return Err(SampleError::Chip);
    }
    match cells(alloc, kind, fuses) {
        Ok(cells) => Ok(cells),
        Err(_) => Err(SampleError::Chip),
    }
}

/// The cells that these fuses make in the chips of these lines.
fn chips(alloc: Global, lines: &[ChipLine], fuses: &[Fuses]) -> Result<Vec<ChipCells>, SampleError>
    requires { length fuses.now ≡ length lines.now }
    ensures { IfOk result (λ made. AreMade lines.now made.items) }
{
    let mut made = Vec::with_capacity(alloc, lines.len())?;
    for (place, line) in lines.iter().enumerate() {
        let cells = chip(alloc, line.kind, &fuses[place])?;
        made.push(cells)?;
    }
    Ok(made)
}

/// The fuses of these texts.
fn read(alloc: Global, texts: &[&str]) -> Result<Vec<Fuses>, SampleError> {
    let mut fuses = Vec::with_capacity(alloc, texts.len())?;
    for text in texts {
        match read_jed(alloc, text.as_bytes()) {
            Ok(read) => fuses.push(read)?,
            Err(_) => return Err(SampleError::Fuses),
        }
    }
    Ok(fuses)
}

/// The board of a wiring and chips.
fn joined(alloc: Global, net: Net, chips: Vec<ChipCells>) -> Result<Board, SampleError>
    requires { IsGiven net chips.items }
    ensures { IfOk result (λ board. board.net ≡ net) }
{
    match Board::join(alloc, net, chips) {
        Ok(board) => Ok(board),
        Err(error) => Err(SampleError::Refused(error)),
    }
}

/// The board of a board text and of the fuses of its chips.
///
/// # Errors
/// The text is refused; the number of fuse lists isn't that of the board's chips; fuses that a chip can't have; what the
/// board is refused for; `Memory`.
pub fn sample_of(alloc: Global, net: &str, fuses: &[Fuses]) -> Result<Board, SampleError>
    ensures { IfOk result (λ board. net_of_text net.now ≡ Ok board.net) }
{
    let wiring = wiring(alloc, net)?;
    if wiring.chips.items().len() != fuses.len() {
        return Err(SampleError::Count);
    }
    let chips = chips(alloc, wiring.chips.items(), fuses)?;
    joined(alloc, wiring, chips)
}

/// The board of a board text and of the fuse texts of its chips.
///
/// # Errors
/// The first fuse text that is refused, and then as `sample_of`.
pub fn sample(alloc: Global, net: &str, fuses: &[&str]) -> Result<Board, SampleError>
    ensures { IfOk result (λ board. net_of_text net.now ≡ Ok board.net) }
{
    let fuses = read(alloc, fuses)?;
    sample_of(alloc, net, fuses.as_slice())
}
