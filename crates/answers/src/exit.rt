ghost use Rattle.std.specs.Prelude.{◌≡◌};
ghost use Rattle.answers.specs.Exits.{status_of};

use mig_base::{
    BoardError, Breach, ChipError, FileName, JedError, NetError, NoMemory, PlanError, ScriptError,
};
use std::alloc::{AllocError, AllocFailed};

/// Why a command was refused. A file is named by its whole name.
#[derive(Drop)]
pub enum Refusal {
    /// The new board would stand under the old one's names.
    Clash,
    /// The board of this file is of a form that is not migrated so far.
    Later(FileName),
    /// The file has more bytes than a file may have.
    TooLong(FileName),
    /// The file is no fuse text.
    Jed(FileName, JedError),
    /// The fuses of the file make no chip of its kind.
    Chip(FileName, ChipError),
    /// The file is no board text.
    Net(FileName, NetError),
    /// The board of this file isn't accepted.
    Board(FileName, BoardError),
    /// The file is no script text for its board.
    Script(FileName, ScriptError),
    /// The file is no plan text.
    PlanText(FileName, PlanError),
}

/// The answer of a command.
#[derive(Drop)]
pub enum Exit {
    Done,
    Usage,
    Refused(Refusal),
    /// The handed plan can't be built.
    Breached(Breach),
    Missing(FileName),
    ReadFault(FileName),
    SaveFault(FileName),
    OutFault,
    Memory,
}

impl From<NoMemory> for Exit {
    ghost use Rattle.answers.specs.declared.exit.Exit.TheVariants.{Memory};

    ghost from_gives = { λ _ e. e ≡ Memory };

    fn from(_: NoMemory) -> Self {
        Exit::Memory
    }
}

impl From<AllocError> for Exit {
    ghost use Rattle.answers.specs.declared.exit.Exit.TheVariants.{Memory};

    ghost from_gives = { λ _ e. e ≡ Memory };

    fn from(_: AllocError) -> Self {
        Exit::Memory
    }
}

impl<T: Drop> From<AllocFailed<T>> for Exit {
    ghost use Rattle.answers.specs.declared.exit.Exit.TheVariants.{Memory};

    ghost from_gives = { λ _ e. e ≡ Memory };

    fn from(_: AllocFailed<T>) -> Self {
        Exit::Memory
    }
}

/// The status that the program ends with.
pub fn status(e: &Exit) -> u8
    ensures { result ≡ status_of e.now }
{
    match e {
        Exit::Done => 0,
        Exit::Usage => 3,
        Exit::Refused(_) => 4,
        Exit::Breached(_) => 5,
        Exit::Missing(_) => 6,
        Exit::ReadFault(_) => 7,
        Exit::SaveFault(_) => 8,
        Exit::OutFault => 9,
        Exit::Memory => 10,
    }
}
