ghost use Rattle.std.specs.Prelude.{◌≡◌, ◌<◌, ◌≤◌, ◌+◌, ◌*◌, length, replicate, slice_get, slice_set, Some, IfOk};

use mig_base::NoMemory;
use std::alloc::Global;
use std::marker::Model;

/// The entries of one chip, one for each number that a pin may have.
const PINS: usize = 256;

/// An entry for each pin of each chip.
#[derive(Drop)]
pub(crate) struct PinTable<T> {
    entries: Vec<T>,
}

impl<T> Model for PinTable<T> {
    ghost use Rattle.std.specs.Prelude.{List};

    ghost Value = { List T };

    ghost view = { λ table. table.entries.items };
}

impl<T: Copy + Drop> PinTable<T> {
    /// The table of these chips that has this entry everywhere.
    pub(crate) fn new(alloc: Global, chips: usize, entry: T) -> Result<PinTable<T>, NoMemory>
        requires { chips ≤ 64 }
        ensures { IfOk result (λ table. table ≡ replicate (256 * chips) entry) }
    {
        let mut entries = Vec::with_capacity(alloc, PINS * chips)?;
        for _ in 0..PINS * chips {
            entries.push(entry)?;
        }
        Ok(PinTable { entries })
    }

    /// The entry of a pin.
    pub(crate) fn at(&self, chip: u32, pin: u8) -> T
        requires { 256 * chip + pin < length self.now }
        ensures { slice_get self.now (256 * chip + pin) ≡ Some result }
    {
        self.entries[PINS * chip as usize + pin as usize]
    }

    /// Puts an entry in place of a pin's, where the table has the pin.
    pub(crate) fn set(&mut self, chip: u32, pin: u8, entry: T)
        ensures { self.new ≡ slice_set self.old (256 * chip + pin) entry }
    {
        let place = PINS * chip as usize + pin as usize;
        if place < self.entries.len() {
            self.entries[place] = entry;
        }
    }
}
