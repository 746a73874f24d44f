use mig_base::NoMemory;
use sample_boards::SampleError;
use std::alloc::{AllocError, AllocFailed};
use std::io;

/// Why a line can't be carried out: it is no command, a file can't be had, a board or a plan is refused, or want of memory.
#[derive(Clone, Copy, Debug)]
pub enum Fault {
    Words,
    File,
    Board,
    Plan,
    Memory,
}

impl From<AllocError> for Fault {
    fn from(_: AllocError) -> Fault {
        Fault::Memory
    }
}

impl<T: Drop> From<AllocFailed<T>> for Fault {
    fn from(_: AllocFailed<T>) -> Fault {
        Fault::Memory
    }
}

impl From<NoMemory> for Fault {
    fn from(_: NoMemory) -> Fault {
        Fault::Memory
    }
}

impl From<SampleError> for Fault {
    fn from(_: SampleError) -> Fault {
        Fault::Board
    }
}

impl From<io::Error> for Fault {
    fn from(_: io::Error) -> Fault {
        Fault::File
    }
}
