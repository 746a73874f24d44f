ghost use Rattle.std.specs.Prelude.{◌≡◌, IfOk};

use crate::{Items, Kind, Mode, NoMemory};
use smallvec::SmallVec;
use std::alloc::Global;
use std::marker::Model;

/// The fuses of a chip, from fuse 0 on. A blown fuse is true.
#[derive(Clone, Drop)]
pub struct Fuses {
    pub bits: Items<bool>,
}

/// What a literal reads: the net of a pin, or the register of a pin's cell.
#[derive(Clone, Copy, PartialEq, Eq)]
pub enum Source {
    Pin(u8),
    Reg(u8),
}

/// A source, or its complement.
#[derive(Clone, Copy, PartialEq, Eq)]
pub struct Lit {
    pub source: Source,
    pub high: bool,
}

impl Default for Lit {
    fn default() -> Self {
        Lit {
            source: Source::Pin(0),
            high: false,
        }
    }
}

/// A product term, which contracts see as the list of its literals.
#[derive(Drop)]
pub struct Product {
    lits: SmallVec<Lit, 8>,
}

impl Model for Product {
    ghost use Rattle.std.specs.Prelude.{List};
    ghost use Rattle.mig_base.specs.declared.cells.Lit.{Lit};

    ghost Value = { List Lit };

    ghost view = { λ p. p.lits.items };
}

impl Product {
    /// The product of these literals.
    pub fn new(alloc: Global, lits: &[Lit]) -> Result<Product, NoMemory>
        ensures { IfOk result (λ p. p ≡ lits.now) }
    {
        let lits = SmallVec::from_slice(alloc, lits)?;
        Ok(Product { lits })
    }

    /// The literals, in rising column.
    pub fn items(&self) -> &[Lit]
        ensures { result.now ≡ self.now }
    {
        self.lits.as_slice()
    }
}

/// A row of an array.
#[derive(Drop)]
pub enum Row {
    Never,
    Product(Product),
}

/// The enable of a cell.
#[derive(Drop)]
pub enum Enable {
    Always,
    Never,
    Term(Product),
    LowPin(u8),
}

/// The form of a cell.
#[derive(Clone, Copy, PartialEq, Eq)]
pub enum Form {
    Idle,
    Comb,
    Reg,
}

/// A macrocell.
#[derive(Drop)]
pub struct Cell {
    pub pin: u8,
    pub form: Form,
    pub low: bool,
    pub pin_low: bool,
    pub enable: Enable,
    pub terms: Items<Product>,
}

/// The cells of a chip, by rising pin.
#[derive(Drop)]
pub struct ChipCells {
    pub kind: Kind,
    pub mode: Mode,
    pub cells: Items<Cell>,
    pub reset: Row,
    pub preset: Row,
}

/// Why fuses make no chip.
#[derive(Clone, Copy, Debug, PartialEq, Eq)]
pub enum ChipError {
    Count { found: u32 },
    ModeBits,
    Ac1InComplex { pin: u8 },
    Memory,
}
