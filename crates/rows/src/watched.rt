ghost use Rattle.std.specs.Prelude.{◌≤◌, None};
ghost use Rattle.mig_io.specs.Counts.{LoadCauses, SaveCauses};
ghost use Rattle.mig_io.specs.Holding.{Loads, Saves};

use crate::held::Held;
use mig_base::FileName;
use mig_io::{Files, LoadError, SaveError};
use std::alloc::Global;

/// Files that remember what was saved.
#[derive(Drop)]
pub struct Watched<F> {
    files: F,
    saved: Held,
}

impl<F: Files + Drop> Watched<F> {
    /// Nothing was saved yet.
    pub fn new(alloc: Global, files: F) -> Watched<F> {
        Watched {
            files,
            saved: Held::new(alloc),
        }
    }

    /// What was saved.
    pub fn into_saved(self) -> Held {
        self.saved
    }
}

impl<F: Files> Files for Watched<F> {
    ghost held = { λ _. None };

    ghost counts = { λ s. F.counts s.files };

    fn load(&mut self, alloc: Global, name: &FileName, most: usize) -> Result<Vec<u8>, LoadError> {
        self.files.load(alloc, name, most)
    }

    fn save(&mut self, alloc: Global, name: &FileName, bytes: &[u8]) -> Result<(), SaveError> {
        self.files.save(alloc, name, bytes)?;
        let Ok(name) = name.copy(alloc) else {
            return Err(SaveError::Memory);
        };
        let Ok(bytes) = Vec::from_slice(alloc, bytes) else {
            return Err(SaveError::Memory);
        };
        match self.saved.put(name, bytes) {
            Ok(()) => Ok(()),
            Err(_) => Err(SaveError::Memory),
        }
    }
}
