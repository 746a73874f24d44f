use mig_base::{NameError, NoMemory};
use mig_io::PutError;
use std::alloc::{AllocError, AllocFailed};
use std::io;

/// Why a line can't be carried out.
#[derive(Clone, Copy, Debug, PartialEq, Eq)]
pub enum Fault {
    /// A quote or an escape is wrong.
    Spelling,
    /// There is no such command, or it has other words.
    Command,
    /// The name is none of a file, or nothing is held under it.
    Name,
    NotHeld,
    /// The part isn't in the file.
    NoPart,
    /// A file on the disk can't be had, or the disk can't be changed.
    Disk,
    /// The input or the output failed.
    Stream,
    Memory,
}

impl Fault {
    /// What is printed.
    pub fn text(self) -> &'static str {
        match self {
            Fault::Spelling => "a quote or an escape is wrong",
            Fault::Command => "no such command",
            Fault::Name => "no name of a file",
            Fault::NotHeld => "no such file is held",
            Fault::NoPart => "nothing to change",
            Fault::Disk => "the disk has no such file, or refuses",
            Fault::Stream => "the input or the output failed",
            Fault::Memory => "no memory",
        }
    }
}

impl From<AllocError> for Fault {
    fn from(_e: AllocError) -> Fault {
        Fault::Memory
    }
}

impl<T: Drop> From<AllocFailed<T>> for Fault {
    fn from(_e: AllocFailed<T>) -> Fault {
        Fault::Memory
    }
}

impl From<NoMemory> for Fault {
    fn from(_e: NoMemory) -> Fault {
        Fault::Memory
    }
}

impl From<NameError> for Fault {
    fn from(e: NameError) -> Fault {
        match e {
            NameError::Bad => Fault::Name,
            NameError::Memory => Fault::Memory,
        }
    }
}

impl From<PutError> for Fault {
    fn from(e: PutError) -> Fault {
        match e {
            PutError::Failed => Fault::Stream,
            PutError::Memory => Fault::Memory,
        }
    }
}

impl From<io::Error> for Fault {
    fn from(_e: io::Error) -> Fault {
        Fault::Stream
    }
}
