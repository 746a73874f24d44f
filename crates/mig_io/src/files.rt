ghost use Rattle.std.specs.Prelude.{ℕ, ◌≤◌, List, Option};
ghost use Rattle.mig_io.specs.Counts.{Counts, LoadCauses, SaveCauses};
ghost use Rattle.mig_io.specs.Holding.{Held, Loads, Saves};

use mig_base::FileName;
use std::alloc::Global;

/// Why a load gave nothing.
#[derive(Clone, Copy, Debug, PartialEq, Eq)]
pub enum LoadError {
    Missing,
    Failed,
    Memory,
}

/// Why a save may not stand.
#[derive(Clone, Copy, Debug, PartialEq, Eq)]
pub enum SaveError {
    Failed,
    Memory,
}

/// Files by their names.
pub trait Files {
    /// What is held, where it is told.
    ghost held: { Self → Option Held };

    /// How often loads and saves failed and loads missed.
    ghost counts: { Self → Counts };

    /// The whole file if it has at most `most` bytes, else its first `most` + 1.
    fn load(&mut self, alloc: Global, name: &FileName, most: usize) -> Result<Vec<u8>, LoadError>
        requires { most ≤ 16777216 }
        ensures held { Loads (held self.old) (held self.new) name.now most result }
        ensures causes { LoadCauses (counts self.old) (counts self.new) result };

    /// Puts the bytes under the name, in place of what it held.
    fn save(&mut self, alloc: Global, name: &FileName, bytes: &[u8]) -> Result<(), SaveError>
        ensures held { Saves (held self.old) (held self.new) name.now bytes.now result }
        ensures causes { SaveCauses (counts self.old) (counts self.new) result };
}
