use crate::faults::Fault;
use crate::held::Held;
use std::alloc::Global;
use std::mem;

/// What holds for the next call alone: changed files, and the numbers of the load, the save and the put that fail. No call
/// has the number 0.
#[derive(Drop)]
pub struct Next {
    pub changed: Held,
    pub bad_load: u32,
    pub bad_save: u32,
    pub bad_put: u32,
}

impl Next {
    /// Nothing changes and nothing fails.
    fn new(alloc: Global) -> Next {
        Next {
            changed: Held::new(alloc),
            bad_load: 0,
            bad_save: 0,
            bad_put: 0,
        }
    }

    /// Whether a load, a save or a put is to fail.
    pub fn is_bad(&self) -> bool {
        self.bad_load > 0 || self.bad_save > 0 || self.bad_put > 0
    }
}

/// The files in memory, and what holds for the next call alone.
#[derive(Drop)]
pub struct Desk {
    pub held: Held,
    pub next: Next,
}

impl Desk {
    /// No file is held, and nothing fails.
    pub fn new(alloc: Global) -> Desk {
        Desk {
            held: Held::new(alloc),
            next: Next::new(alloc),
        }
    }

    /// What holds for the call that begins. The one after it has nothing of its own.
    pub fn take_next(&mut self, alloc: Global) -> Next {
        mem::replace(&mut self.next, Next::new(alloc))
    }

    /// The bytes of a file.
    ///
    /// # Errors
    /// `NotHeld` where there is none of this name.
    pub fn bytes_of(&self, name: &str) -> Result<&[u8], Fault> {
        self.held.get(name).ok_or(Fault::NotHeld)
    }

    /// The bytes that a file has in the next call.
    ///
    /// # Errors
    /// `NotHeld` where there is none of this name.
    pub fn next_bytes_of(&self, name: &str) -> Result<&[u8], Fault> {
        match self.next.changed.get(name) {
            Some(bytes) => Ok(bytes),
            None => self.bytes_of(name),
        }
    }
}
