ghost use Rattle.std.specs.Prelude.{◌≡◌, ◌≤◌, ◌==◌, ℕ};
ghost use Rattle.std.specs.Option.{option_map};
ghost use Rattle.mig_io.specs.Memory.{first_named, is_listed, next_call, IsPartOf, PutsFirst};

use crate::{LoadError, SaveError};
use mig_base::FileName;
use std::alloc::Global;

/// A file in memory.
pub(crate) type NamedBytes = (FileName, Vec<u8>);

fn find<'a>(files: &'a [NamedBytes], name: &FileName) -> Option<&'a [u8]>
    ensures { option_map (λ bytes. bytes.now) result ≡ first_named files.now name.now }
{
    for file in files {
        if name.text() == file.0.text() {
            return Some(file.1.as_slice());
        }
    }
    None
}

/// The file of this name, and no more than its first `most` + 1 bytes.
pub(crate) fn part_of(
    alloc: Global,
    files: &[NamedBytes],
    name: &FileName,
    most: usize,
) -> Result<Vec<u8>, LoadError>
    requires { most ≤ 16777216 }
    ensures { IsPartOf (first_named files.now name.now) most result }
{
    let Some(bytes) = find(files, name) else {
        return Err(LoadError::Missing);
    };
    let len = bytes.len().min(most + 1);
    match Vec::from_slice(alloc, &bytes[..len]) {
        Ok(part) => Ok(part),
        Err(_) => Err(LoadError::Memory),
    }
}

/// Puts the bytes first, so that they are what the name holds.
pub(crate) fn put_first(
    alloc: Global,
    files: &mut Vec<NamedBytes>,
    name: &FileName,
    bytes: &[u8],
) -> Result<(), SaveError>
    ensures { PutsFirst files.old.items files.new.items name.now bytes.now result }
{
    let Ok(name) = name.copy(alloc) else {
        return Err(SaveError::Memory);
    };
    let Ok(bytes) = Vec::from_slice(alloc, bytes) else {
        return Err(SaveError::Memory);
    };
    match files.insert(0, (name, bytes)) {
        Ok(()) => Ok(()),
        Err(_) => Err(SaveError::Memory),
    }
}

/// Whether the call of this number is to fail.
pub(crate) fn is_bad(bad: &[u32], call: u64) -> bool
    ensures { result ≡ is_listed bad.now call }
{
    bad.iter().any(|k| u64::from(*k) == call)
}
