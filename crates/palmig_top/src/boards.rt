ghost use Rattle.std.specs.Prelude.{◌≡◌, ℕ, List, Option, IfOk};
ghost use Rattle.verdicts.specs.HeldBoard.{net_file};
ghost use Rattle.verdicts.specs.JudgedBoard.{Joins, JudgesBoard, LoadsBoard};
ghost use Rattle.palmig_top.specs.Steps.{Step, Finds};
ghost use Rattle.palmig_top.specs.Reading.{IsReadBoard};

use crate::loads::{named, read_chips, read_wiring};
use answers::{Exit, Refusal};
use board::Board;
use mig_base::{BoardError, ChipCells, Net, Stem};
use mig_io::Files;
use std::alloc::Global;

/// The board of this wiring and these chips, or why it isn't accepted.
fn joined(alloc: Global, stem: &Stem, net: Net, chips: Vec<ChipCells>) -> Result<Board, Exit>
    requires { IsReadBoard (record { net = net; chips = chips.items }) }
    ensures { Finds (λ board. board) (Joins (net_file stem.now) (record { net = net; chips = chips.items })) result }
{
    let name = named(alloc, stem, None, "net")?;
    match Board::join(alloc, net, chips) {
        Ok(board) => Ok(board),
        Err(BoardError::Memory) => Err(Exit::Memory),
        Err(e) => Err(Exit::Refused(Refusal::Board(name, e))),
    }
}

/// Loads a board, and joins it.
pub fn read_board<F: Files>(alloc: Global, files: &mut F, stem: &Stem) -> Result<Board, Exit>
    ensures step { Step (λ board. board) (JudgesBoard stem.now) (λ h f. LoadsBoard h stem.now f) (F.held files.old) (F.held files.new) (F.counts files.old) (F.counts files.new) result }
    ensures read { IfOk result (λ board. IsReadBoard board) }
{
    let net = read_wiring(alloc, files, stem)?;
    let chips = read_chips(alloc, files, stem, net.chips.items())?;
    joined(alloc, stem, net, chips)
}
