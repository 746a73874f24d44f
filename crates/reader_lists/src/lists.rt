ghost use Rattle.std.specs.Prelude.{◌≡◌, ◌<◌, [], true, length, replicate, slice_index_or, IfOk, OnOk};
ghost use Rattle.mig_base.specs.Among.{Among};
ghost use Rattle.reader_lists.specs.Lists.{IsPut};

use mig_base::NoMemory;
use std::alloc::Global;
use std::marker::Model;

/// What reads nodes, by number: a net, whose drivers read them; a register, whose reset does; or a unit.
#[derive(Clone, Copy, PartialEq, Eq)]
pub enum Reader {
    ByNet(u32),
    ByRegister(u32),
    ByUnit(u32),
}

/// Lists of readers, by number.
#[derive(Drop)]
pub(crate) struct Lists {
    lists: Vec<Vec<Reader>>,
}

impl Model for Lists {
    ghost use Rattle.std.specs.Prelude.{List, map};
    ghost use Rattle.reader_lists.specs.declared.lists.Reader.{Reader as ReaderOf};

    ghost Value = { List (List ReaderOf) };

    ghost view = { λ it. map (λ list. list.items) it.lists.items };
}

impl Lists {
    /// So many empty lists.
    pub(crate) fn empty(alloc: Global, count: usize) -> Result<Lists, NoMemory>
        ensures { IfOk result (λ lists. lists ≡ replicate count []) }
    {
        let mut lists = Vec::with_capacity(alloc, count)?;
        for _ in 0..count {
            lists.push(Vec::new(alloc))?;
        }
        Ok(Lists { lists })
    }

    /// The list of a number, and an empty one where there is none.
    pub(crate) fn at(&self, place: u32) -> &[Reader]
        ensures { result.now ≡ slice_index_or self.now place [] }
    {
        let place = place as usize;
        if place < self.lists.len() {
            self.lists[place].as_slice()
        } else {
            &[]
        }
    }

    /// Adds a reader to the list of a number, where there is one and it doesn't end with that reader.
    pub(crate) fn add(&mut self, place: u32, reader: Reader) -> Result<(), NoMemory>
        ensures { OnOk result (IsPut self.old place reader self.new) }
    {
        if ends_with(self.at(place), reader) {
            return Ok(());
        }
        self.put(place, reader)
    }

    /// Adds a reader to the list of a number, where there is one.
    fn put(&mut self, place: u32, reader: Reader) -> Result<(), NoMemory>
        ensures { OnOk result (IsPut self.old place reader self.new) }
    {
        let place = place as usize;
        if place < self.lists.len() {
            self.lists[place].push(reader)?;
        }
        Ok(())
    }
}

/// Whether the last of these readers is this one.
fn ends_with(list: &[Reader], reader: Reader) -> bool
    ensures { result ≡ true → Among reader list.now }
{
    if list.is_empty() {
        return false;
    }
    same_reader(list[list.len() - 1], reader)
}

/// Whether two readers are the same.
fn same_reader(one: Reader, other: Reader) -> bool
    ensures { result ≡ true → one ≡ other }
{
    one == other
}
