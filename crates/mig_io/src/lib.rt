//! Files and a sink for reports, as traits with counts of their faults: in memory, and the system's.
#![tactic(auto)]

mod disk;
mod files;
mod memory;
mod sink;
mod store;

pub use disk::{DiskFiles, OutSink, WriterSink};
pub use files::{Files, LoadError, SaveError};
pub use memory::{FirmFiles, FirmSink, MemFiles, MemSink};
pub use sink::{PutError, Sink};
