use mig_base::{ChipCells, Gate, Items, Literal, Name, Net, Plan};

/// A unit on a new chip: its pin there, its number, and its rows over variables. `low` inverts the sum, of a registered
/// unit before D.
#[derive(Drop)]
pub struct PlacedUnit {
    pub pin: u8,
    pub unit: u32,
    pub low: bool,
    pub terms: Items<Items<Literal>>,
    pub enable: Gate,
    pub reset: Gate,
    pub preset: Gate,
}

/// A pin of a new chip on a net of the old board, by its number.
#[derive(Clone, Copy)]
pub struct PinNet {
    pub pin: u8,
    pub net: u32,
}

/// A new chip: its name, its cells, and the pins that have a line, rising.
#[derive(Drop)]
pub struct FittedChip {
    pub name: Name,
    pub cells: ChipCells,
    pub wires: Items<PinNet>,
}

/// A rebuilt board: its chips, the plan that it was built by, and its wiring.
#[derive(Drop)]
pub struct Rebuilt {
    pub chips: Items<FittedChip>,
    pub plan: Plan,
    pub net: Net,
}
