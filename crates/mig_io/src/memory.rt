ghost use Rattle.std.specs.Prelude.{◌≡◌, ◌≤◌, ℕ, List, [], Option, Some, Vec};
ghost use Rattle.mig_io.specs.Holding.{Held, Loads, Saves, Puts};
ghost use Rattle.mig_io.specs.Counts.{Counts, LoadCauses, SaveCauses, PutCauses};
ghost use Rattle.mig_io.specs.Memory.{first_named, is_listed, next_call, LoadFailsAt, SaveFailsAt, PutFailsAt};

use crate::store::{NamedBytes, is_bad, part_of, put_first};
use crate::{Files, LoadError, PutError, SaveError, Sink};
use mig_base::FileName;
use std::alloc::Global;

/// Files in memory. The load and the save of a listed number, counted apart from 1, fail; no other does.
#[derive(Drop)]
pub struct MemFiles {
    files: Vec<NamedBytes>,
    bad_loads: Vec<u32>,
    bad_saves: Vec<u32>,
    loads: u64,
    saves: u64,
    read_faults: u64,
    save_faults: u64,
    misses: u64,
}

impl MemFiles {
    /// These files, whose names are distinct, and the numbers of the loads and saves that are to fail.
    pub fn new(files: Vec<NamedBytes>, bad_loads: Vec<u32>, bad_saves: Vec<u32>) -> MemFiles
        ensures { result ≡ record { files = files; bad_loads = bad_loads; bad_saves = bad_saves; loads = 0; saves = 0; read_faults = 0; save_faults = 0; misses = 0 } }
    {
        MemFiles {
            files,
            bad_loads,
            bad_saves,
            loads: 0,
            saves: 0,
            read_faults: 0,
            save_faults: 0,
            misses: 0,
        }
    }
}

impl Files for MemFiles {
    ghost held = { λ s. Some (first_named s.files.items) };

    ghost counts = { λ s. record { read_faults = s.read_faults; save_faults = s.save_faults; misses = s.misses } };

    fn load(&mut self, alloc: Global, name: &FileName, most: usize) -> Result<Vec<u8>, LoadError>
        requires { most ≤ 16777216 }
        ensures held { Loads (Some (first_named self.old.files.items)) (Some (first_named self.new.files.items)) name.now most result }
        ensures causes { LoadCauses (record { read_faults = self.old.read_faults; save_faults = self.old.save_faults; misses = self.old.misses })
            (record { read_faults = self.new.read_faults; save_faults = self.new.save_faults; misses = self.new.misses }) result }
        ensures fails { LoadFailsAt (is_listed self.old.bad_loads.items (next_call self.old.loads)) (first_named self.old.files.items name.now) result }
        ensures call { self.new ≡ record self.old { loads = next_call self.old.loads; read_faults = self.new.read_faults; misses = self.new.misses } }
    {
        self.loads = self.loads.saturating_add(1);
        if is_bad(&self.bad_loads, self.loads) {
            self.read_faults = self.read_faults.saturating_add(1);
            return Err(LoadError::Failed);
        }
        let part = part_of(alloc, &self.files, name, most);
        if let Err(LoadError::Missing) = part {
            self.misses = self.misses.saturating_add(1);
        }
        part
    }

    fn save(&mut self, alloc: Global, name: &FileName, bytes: &[u8]) -> Result<(), SaveError>
        ensures held { Saves (Some (first_named self.old.files.items)) (Some (first_named self.new.files.items)) name.now bytes.now result }
        ensures causes { SaveCauses (record { read_faults = self.old.read_faults; save_faults = self.old.save_faults; misses = self.old.misses })
            (record { read_faults = self.new.read_faults; save_faults = self.new.save_faults; misses = self.new.misses }) result }
        ensures fails { SaveFailsAt (is_listed self.old.bad_saves.items (next_call self.old.saves)) result }
        ensures call { self.new ≡ record self.old { files = self.new.files; saves = next_call self.old.saves; save_faults = self.new.save_faults } }
    {
        self.saves = self.saves.saturating_add(1);
        if is_bad(&self.bad_saves, self.saves) {
            self.save_faults = self.save_faults.saturating_add(1);
            return Err(SaveError::Failed);
        }
        put_first(alloc, &mut self.files, name, bytes)
    }
}

/// Files in memory that never fail.
#[derive(Drop)]
pub struct FirmFiles {
    files: Vec<NamedBytes>,
    misses: u64,
}

impl FirmFiles {
    /// These files, whose names are distinct.
    pub fn new(files: Vec<NamedBytes>) -> FirmFiles
        ensures { result ≡ record { files = files; misses = 0 } }
    {
        FirmFiles { files, misses: 0 }
    }
}

impl Files for FirmFiles {
    ghost held = { λ s. Some (first_named s.files.items) };

    ghost counts = { λ s. record { read_faults = 0; save_faults = 0; misses = s.misses } };

    fn load(&mut self, alloc: Global, name: &FileName, most: usize) -> Result<Vec<u8>, LoadError> {
        let part = part_of(alloc, &self.files, name, most);
        if let Err(LoadError::Missing) = part {
            self.misses = self.misses.saturating_add(1);
        }
        part
    }

    fn save(&mut self, alloc: Global, name: &FileName, bytes: &[u8]) -> Result<(), SaveError> {
        put_first(alloc, &mut self.files, name, bytes)
    }
}

/// A sink in memory. The put of a listed number, counted from 1, fails; no other does.
#[derive(Drop)]
pub struct MemSink {
    sent: Vec<u8>,
    bad: Vec<u32>,
    puts: u64,
    faults: u64,
}

impl MemSink {
    /// An empty sink, and the numbers of the puts that are to fail.
    pub fn new(alloc: Global, bad: Vec<u32>) -> MemSink
        ensures sent { result.sent.items ≡ [] }
        ensures bad { result.bad ≡ bad }
        ensures puts { result.puts ≡ 0 }
        ensures faults { result.faults ≡ 0 }
    {
        MemSink {
            sent: Vec::new(alloc),
            bad,
            puts: 0,
            faults: 0,
        }
    }

    /// What was sent.
    pub fn sent(&self) -> &[u8]
        ensures { result.now ≡ self.now.sent.items }
    {
        &self.sent
    }
}

impl Sink for MemSink {
    ghost sent = { λ s. Some s.sent.items };

    ghost faults = { λ s. s.faults };

    fn put(&mut self, _alloc: Global, bytes: &[u8]) -> Result<(), PutError>
        ensures sent { Puts (Some self.old.sent.items) (Some self.new.sent.items) bytes.now result }
        ensures causes { PutCauses self.old.faults self.new.faults result }
        ensures fails { PutFailsAt (is_listed self.old.bad.items (next_call self.old.puts)) result }
        ensures call { self.new ≡ record self.old { sent = self.new.sent; puts = next_call self.old.puts; faults = self.new.faults } }
    {
        self.puts = self.puts.saturating_add(1);
        if is_bad(&self.bad, self.puts) {
            self.faults = self.faults.saturating_add(1);
            return Err(PutError::Failed);
        }
        match self.sent.extend_from_slice(bytes) {
            Ok(()) => Ok(()),
            Err(_) => Err(PutError::Memory),
        }
    }
}

/// A sink in memory that never fails.
#[derive(Drop)]
pub struct FirmSink {
    sent: Vec<u8>,
}

impl FirmSink {
    /// An empty sink.
    pub fn new(alloc: Global) -> FirmSink
        ensures { result.sent.items ≡ [] }
    {
        FirmSink {
            sent: Vec::new(alloc),
        }
    }

    /// What was sent.
    pub fn sent(&self) -> &[u8]
        ensures { result.now ≡ self.now.sent.items }
    {
        &self.sent
    }
}

impl Sink for FirmSink {
    ghost sent = { λ s. Some s.sent.items };

    ghost faults = { λ _. 0 };

    fn put(&mut self, _alloc: Global, bytes: &[u8]) -> Result<(), PutError> {
        match self.sent.extend_from_slice(bytes) {
            Ok(()) => Ok(()),
            Err(_) => Err(PutError::Memory),
        }
    }
}
