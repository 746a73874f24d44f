ghost use Rattle.std.specs.Prelude.{◌≡◌, ◌≢◌, ◌≤◌, ◌+◌, ℕ, Option, None, Err, IfOk, IfErr, IfSome, IsErrAnd, IsErrOf, IsOkAnd, OnOk, take};
ghost use Rattle.std.specs.Io.KnownBytes.{Appends};
ghost use Rattle.std.specs.IoError.{error_kind};
ghost use Rattle.mig_io.specs.Counts.{PutCauses, Rose};
ghost use Rattle.mig_io.specs.Holding.{Puts};

use crate::{Files, LoadError, PutError, SaveError, Sink};
use mig_base::FileName;
use std::alloc::Global;
use std::fs::File;
use std::io;
use std::io::{ErrorKind, Print, Printer, Read, Write};

/// The files of the system, over the runtime that `main` was given.
#[derive(Drop)]
pub struct DiskFiles<'a, R> {
    rt: &'a R,
    read_faults: u64,
    save_faults: u64,
    misses: u64,
}

impl<'a, R: std::rt::Files> DiskFiles<'a, R> {
    /// Nothing is counted yet.
    pub fn new(rt: &'a R) -> DiskFiles<'a, R>
        ensures read_faults { result.read_faults ≡ 0 }
        ensures save_faults { result.save_faults ≡ 0 }
        ensures misses { result.misses ≡ 0 }
    {
        DiskFiles {
            rt,
            read_faults: 0,
            save_faults: 0,
            misses: 0,
        }
    }
}

/// The file's bytes, or the first `most` of them.
fn read_most<F: Read + Drop>(alloc: Global, file: F, most: usize) -> Result<Vec<u8>, LoadError>
    ensures bytes { IfOk result (λ v. IfSome (F.remaining file) (λ xs. v.items ≡ take most xs)) }
    ensures failed { result ≢ Err LoadError.Missing }
{
    let mut bytes = Vec::new(alloc);
    match file.take(most as u64).read_to_end(&mut bytes) {
        Ok(_) => Ok(bytes),
        Err(e) if e.kind() == ErrorKind::OutOfMemory => Err(LoadError::Memory),
        Err(_) => Err(LoadError::Failed),
    }
}

/// Reads what was opened.
fn read_opened<F: Read + Drop>(
    alloc: Global,
    opened: io::Result<F>,
    most: usize,
) -> Result<Vec<u8>, LoadError>
    ensures bytes { IfOk result (λ v. IsOkAnd opened (λ file. IfSome (F.remaining file) (λ xs. v.items ≡ take most xs))) }
    ensures missing { IsErrOf result LoadError.Missing → IsErrAnd opened (λ e. error_kind e ≡ ErrorKind.NotFound) }
    ensures not_found { IsErrAnd opened (λ e. error_kind e ≡ ErrorKind.NotFound) → IsErrOf result LoadError.Missing }
{
    match opened {
        Ok(file) => read_most(alloc, file, most),
        Err(e) if e.kind() == ErrorKind::NotFound => Err(LoadError::Missing),
        Err(_) => Err(LoadError::Failed),
    }
}

/// Writes what was opened, and gives it back where it took all the bytes. Else a fault is counted.
fn write_opened<F: Write + Drop>(
    opened: io::Result<F>,
    bytes: &[u8],
    save_faults: &mut u64,
) -> Result<F, SaveError>
    ensures written { IfOk result (λ now. IsOkAnd opened (λ file. Appends (F.contents file) (F.contents now) bytes.now)) }
    ensures failed { IfErr result (λ e. (e ≡ SaveError.Failed) × Rose save_faults.old save_faults.new) }
    ensures later { save_faults.old ≤ save_faults.new }
    ensures same { OnOk result (save_faults.new ≡ save_faults.old) }
{
    if let Ok(mut file) = opened {
        if file.write_all(bytes).is_ok() {
            return Ok(file);
        }
    }
    *save_faults = save_faults.saturating_add(1);
    Err(SaveError::Failed)
}

impl<'a, R: std::rt::Files> Files for DiskFiles<'a, R> {
    ghost held = { λ _. None };

    ghost counts = { λ s. record { read_faults = s.read_faults; save_faults = s.save_faults; misses = s.misses } };

    fn load(&mut self, alloc: Global, name: &FileName, most: usize) -> Result<Vec<u8>, LoadError> {
        let opened = File::open(self.rt, name.text());
        let result = read_opened(alloc, opened, most + 1);
        match result {
            Err(LoadError::Missing) => self.misses = self.misses.saturating_add(1),
            Err(LoadError::Failed) => self.read_faults = self.read_faults.saturating_add(1),
            _ => {}
        }
        result
    }

    fn save(&mut self, _alloc: Global, name: &FileName, bytes: &[u8]) -> Result<(), SaveError> {
        let created = File::create(self.rt, name.text());
        let Ok(_written) = write_opened(created, bytes, &mut self.save_faults) else {
            return Err(SaveError::Failed);
        };
        Ok(())
    }
}

/// A writer as a sink.
#[derive(Drop)]
pub struct WriterSink<W> {
    out: W,
    faults: u64,
}

/// The standard output, over the runtime that `main` was given.
pub type OutSink<'a, R> = WriterSink<Printer<'a, R>>;

impl<'a, R: Print> OutSink<'a, R> {
    /// Nothing is counted yet.
    pub fn new(rt: &'a R) -> OutSink<'a, R>
        ensures { result.faults ≡ 0 }
    {
        WriterSink {
            out: io::writer(rt),
            faults: 0,
        }
    }
}

impl<W: Write> Sink for WriterSink<W> {
    ghost sent = { λ _. None };

    ghost faults = { λ s. s.faults };

    fn put(&mut self, _alloc: Global, bytes: &[u8]) -> Result<(), PutError>
        ensures sent { Puts None None bytes.now result }
        ensures causes { PutCauses self.old.faults self.new.faults result }
        ensures written { OnOk result (Appends (W.contents self.old.out) (W.contents self.new.out) bytes.now) }
        ensures failed { result ≢ Err PutError.Memory }
    {
        match self.out.write_all(bytes) {
            Ok(()) => Ok(()),
            Err(_) => {
                self.faults = self.faults.saturating_add(1);
                Err(PutError::Failed)
            }
        }
    }
}
