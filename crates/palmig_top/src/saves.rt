ghost use Rattle.std.specs.Prelude.{◌≡◌, ℕ, List, Option, map};
ghost use Rattle.mig_io.specs.Counts.{NoneFell};
ghost use Rattle.palmig_top.specs.Saving.{SavesOne, SavesAll, file_of};

use answers::Exit;
use mig_base::FileName;
use mig_io::{Files, SaveError};
use std::alloc::Global;

/// A file that is to be saved.
#[derive(Drop)]
pub struct NewFile {
    pub name: FileName,
    pub bytes: Vec<u8>,
}

/// Saves one file.
fn save_one<F: Files>(alloc: Global, files: &mut F, file: &NewFile) -> Result<(), Exit>
    ensures held { SavesOne file.now.name file.now.bytes.items (F.held files.old) (F.held files.new) (F.counts files.old) (F.counts files.new) result }
    ensures later { NoneFell (F.counts files.old) (F.counts files.new) }
{
    let name = file.name.copy(alloc)?;
    match files.save(alloc, &name, &file.bytes) {
        Ok(()) => Ok(()),
        Err(SaveError::Failed) => Err(Exit::SaveFault(name)),
        Err(SaveError::Memory) => Err(Exit::Memory),
    }
}

/// Saves the files, one behind the other.
pub fn save_all<F: Files>(alloc: Global, files: &mut F, saves: &[NewFile]) -> Result<(), Exit>
    ensures held { SavesAll (map file_of saves.now) (F.held files.old) (F.held files.new) (F.counts files.old) (F.counts files.new) result }
    ensures later { NoneFell (F.counts files.old) (F.counts files.new) }
{
    for file in saves {
        save_one(alloc, files, file)?;
    }
    Ok(())
}
