use crate::{Inputs, Level, PinName, Script, State};

/// A difference of two boards: a script for the first one, and a port, by its net there, that shows two levels after the last
/// step.
#[derive(Drop)]
pub struct Trace {
    pub script: Script,
    pub port: u32,
    pub left: Level,
    pub right: Level,
}

/// A register of one of two boards, by the name of its unit.
#[derive(Clone, Copy)]
pub struct Alone {
    pub of_a: bool,
    pub unit: PinName,
}

/// What keeps two boards from being proved the same: a pair of states that agrees, inputs in the first board's order, and a
/// port, by its net there, that shows two levels under them. `alone` is a register that no register of the other board is
/// matched with.
#[derive(Drop)]
pub struct Gap {
    pub port: u32,
    pub left: Level,
    pub right: Level,
    pub a: State,
    pub b: State,
    pub inputs: Inputs,
    pub alone: Option<Alone>,
}
