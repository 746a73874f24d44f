ghost use Rattle.std.specs.Prelude.{◌≡◌};

use crate::{Items, Kind, Name, NoMemory};

/// The direction of a net.
#[derive(Clone, Copy, PartialEq, Eq)]
pub enum Port {
    Inner,
    Input,
    Output,
    Both,
}

/// A resistor on a net that nothing else drives: none, to VCC, or to GND.
#[derive(Clone, Copy, PartialEq, Eq)]
pub enum Pull {
    Free,
    Up,
    Down,
}

/// A named net.
#[derive(Clone, Copy)]
pub struct NetLine {
    pub name: Name,
    pub port: Port,
    pub pull: Pull,
}

/// A chip of a board.
#[derive(Clone, Copy)]
pub struct ChipLine {
    pub name: Name,
    pub kind: Kind,
}

/// The pin of a chip, by the chip's number from 0, on a net: 0 is GND, 1 is VCC, 2 the first named net.
#[derive(Clone, Copy, PartialEq, Eq)]
pub struct PinLine {
    pub chip: u32,
    pub pin: u8,
    pub net: u32,
}

/// The wiring of a board: named nets and chips in the order of their lines, pins by chip and rising pin.
#[derive(Drop)]
pub struct Net {
    pub nets: Items<NetLine>,
    pub chips: Items<ChipLine>,
    pub pins: Items<PinLine>,
}

/// A variable of a board's equations: a net by its number, or a register by the number of its unit.
#[derive(Clone, Copy, PartialEq, Eq)]
pub enum Var {
    Net(u32),
    Reg(u32),
}

/// A literal over variables.
#[derive(Clone, Copy, PartialEq, Eq)]
pub struct VarLit {
    pub var: Var,
    pub high: bool,
}

/// A product over variables: literals in variable order, true before complement.
#[derive(Clone, Drop)]
pub struct VarProduct {
    pub lits: Items<VarLit>,
}

/// A node of a board, by its name.
#[derive(Clone, Copy)]
pub enum Node {
    Gnd,
    Vcc,
    Named(Name),
    Private(PinName),
    Reg(PinName),
}

/// A pin of a chip, by name.
#[derive(Clone, Copy, PartialEq, Eq)]
pub struct PinName {
    pub chip: Name,
    pub pin: u8,
}

/// Why a wiring and chips make no board: the first Input port or constant with a driver, the chip of the first register whose
/// clock net is neither of these, the first loop of nodes that read one another, or want of memory.
#[derive(Drop)]
pub enum BoardError {
    InDriven { net: Node },
    DerivedClock { chip: Name },
    Loop { cycle: Items<Node> },
    Memory,
}

impl From<NoMemory> for BoardError {
    ghost use Rattle.mig_base.specs.declared.nets.BoardError.TheVariants.{Memory};

    ghost from_gives = { λ _ e. e ≡ Memory };

    fn from(_: NoMemory) -> Self {
        BoardError::Memory
    }
}

/// Why a board text was refused, with the number of the line, from 1.
#[derive(Clone, Copy, Debug, PartialEq, Eq)]
pub enum NetError {
    Line { n: u32 },
    NetsOver { n: u32 },
    ChipsOver { n: u32 },
    NameTwice { n: u32 },
    KindUnknown { n: u32 },
    NetUnknown { n: u32 },
    ChipUnknown { n: u32 },
    PinUnknown { n: u32 },
    PinTwice { n: u32 },
    PowerPin { n: u32 },
    PullTwice { n: u32 },
    PullNet { n: u32 },
    NoEnd,
    Memory,
}
