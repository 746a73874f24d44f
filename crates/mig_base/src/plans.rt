use crate::{Items, Kind, Mode, Name, PinName, Var};

/// A chip of a plan.
#[derive(Clone, Copy)]
pub struct PlanChip {
    pub name: Name,
    pub kind: Kind,
    pub mode: Mode,
}

/// Where an old unit goes: to a macrocell pin of a new chip, or into its readers.
#[derive(Clone, Copy)]
pub enum PlanLine {
    Place { unit: PinName, chip: Name, pin: u8 },
    Absorb { unit: PinName },
}

/// A plan: new chips, and what becomes of the old units.
#[derive(Clone, Drop)]
pub struct Plan {
    pub chips: Items<PlanChip>,
    pub lines: Items<PlanLine>,
}

/// A part of a unit.
#[derive(Clone, Copy, PartialEq, Eq)]
pub enum Part {
    Logic,
    Enable,
    Reset,
    Preset,
}

/// Why a plan text was refused, with the number of the line, from 1.
#[derive(Clone, Copy, Debug, PartialEq, Eq)]
pub enum PlanError {
    Line { n: u32 },
    KindUnknown { n: u32 },
    ChipsOver { n: u32 },
    LinesOver { n: u32 },
    NoEnd,
    Memory,
}

/// Why a plan can't be built: the first rule that it breaks, and what breaks it.
#[derive(Clone, Copy)]
pub enum Breach {
    ChipTwice {
        chip: Name,
    },
    UnitUnknown {
        unit: PinName,
    },
    UnitTwice {
        unit: PinName,
    },
    ChipUnknown {
        unit: PinName,
        chip: Name,
    },
    NoCell {
        unit: PinName,
        pin: u8,
    },
    PinTaken {
        unit: PinName,
        pin: u8,
    },
    NotAbsorbable {
        unit: PinName,
    },
    Unplaced {
        unit: PinName,
    },
    Mode {
        unit: PinName,
    },
    Clock {
        unit: PinName,
    },
    Phase {
        unit: PinName,
    },
    ConeWide {
        unit: PinName,
        count: u32,
    },
    PrimesOver {
        unit: PinName,
    },
    Reset {
        unit: PinName,
    },
    Enable {
        unit: PinName,
    },
    TermsOver {
        unit: PinName,
        needed: u32,
        most: u32,
    },
    NoInput {
        chip: Name,
        variable: Var,
    },
    FullRow {
        unit: PinName,
    },
}
