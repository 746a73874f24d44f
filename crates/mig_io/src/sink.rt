ghost use Rattle.std.specs.Prelude.{ℕ, List, Option};
ghost use Rattle.mig_io.specs.Counts.{PutCauses};
ghost use Rattle.mig_io.specs.Holding.{Puts};

use std::alloc::Global;

/// Why a put may have sent only a part.
#[derive(Clone, Copy, Debug, PartialEq, Eq)]
pub enum PutError {
    Failed,
    Memory,
}

/// Where a report goes.
pub trait Sink {
    /// What was sent, where it is told.
    ghost sent: { Self → Option (List ℕ) };

    /// How often it failed.
    ghost faults: { Self → ℕ };

    /// Sends the bytes.
    fn put(&mut self, alloc: Global, bytes: &[u8]) -> Result<(), PutError>
        ensures sent { Puts (sent self.old) (sent self.new) bytes.now result }
        ensures causes { PutCauses (faults self.old) (faults self.new) result };
}
