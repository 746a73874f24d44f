use crate::desk::Desk;
use crate::faults::Fault;
use crate::held::name_of;
use mig_io::{DiskFiles, Files, LoadError, SaveError};
use std::alloc::Global;
use std::os::unix::fs::PermissionsExt;
use std::{fs, io};

/// The most bytes of a file that is loaded.
const MOST: usize = 16_777_216;

/// Holds a file as it lies on the disk.
///
/// # Errors
/// `Disk` where it can't be loaded.
pub fn hold_file(
    rt: &HostRuntime,
    alloc: Global,
    desk: &mut Desk,
    name: &str,
) -> Result<(), Fault> {
    let name = name_of(alloc, name)?;
    match DiskFiles::new(rt).load(alloc, &name, MOST) {
        Ok(bytes) => {
            desk.held.put(name, bytes)?;
            Ok(())
        }
        Err(LoadError::Memory) => Err(Fault::Memory),
        Err(_) => Err(Fault::Disk),
    }
}

/// Saves a file to the disk, and tells what came of it.
fn save(rt: &HostRuntime, alloc: Global, desk: &Desk, name: &str) -> Result<String, Fault> {
    let bytes = desk.bytes_of(name)?;
    let saved = DiskFiles::new(rt).save(alloc, &name_of(alloc, name)?, bytes);
    match saved {
        Ok(()) => Ok(String::from_str(alloc, "done\n")?),
        Err(SaveError::Failed) => Ok(String::from_str(alloc, "fault\n")?),
        Err(SaveError::Memory) => Err(Fault::Memory),
    }
}

/// Loads a file from the disk, and tells what came of it.
fn load(rt: &HostRuntime, alloc: Global, name: &str, most: usize) -> Result<String, Fault> {
    if most > MOST {
        return Err(Fault::Command);
    }
    match DiskFiles::new(rt).load(alloc, &name_of(alloc, name)?, most) {
        Ok(bytes) => {
            let len = bytes.len();
            Ok(format!(in alloc; "bytes {len}\n")?)
        }
        Err(LoadError::Missing) => Ok(String::from_str(alloc, "missing\n")?),
        Err(LoadError::Failed) => Ok(String::from_str(alloc, "fault\n")?),
        Err(LoadError::Memory) => Err(Fault::Memory),
    }
}

/// Takes all rights from a file.
fn lock(rt: &HostRuntime, name: &str) -> io::Result<()> {
    let mut rights = fs::metadata(rt, name)?.permissions();
    rights.set_mode(0);
    fs::set_permissions(rt, name, rights)
}

/// The answer of a change of the disk, which tells nothing.
fn unless_refused(alloc: Global, changed: io::Result<()>) -> Result<String, Fault> {
    match changed {
        Ok(()) => Ok(String::new(alloc)),
        Err(_) => Err(Fault::Disk),
    }
}

/// Carries out a command on the disk.
pub fn on_disk(
    rt: &HostRuntime,
    alloc: Global,
    desk: &Desk,
    words: &[&str],
) -> Result<String, Fault> {
    match words {
        ["load", name, most] => match most.parse::<usize>() {
            Ok(most) => load(rt, alloc, name, most),
            Err(_) => Err(Fault::Command),
        },
        ["save", name] => save(rt, alloc, desk, name),
        ["folder", name] => unless_refused(alloc, fs::create_dir(rt, *name)),
        ["lock", name] => unless_refused(alloc, lock(rt, name)),
        ["remove", name] => unless_refused(alloc, fs::remove_file(rt, *name)),
        _ => Err(Fault::Command),
    }
}
