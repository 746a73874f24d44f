use crate::{Items, Level, Pull};

/// What a literal reads on a board: a net, or the visible Q of a register.
#[derive(Clone, Copy, PartialEq, Eq)]
pub enum Read {
    OfNet(u32),
    OfRegister(u32),
}

/// A literal of a board: what it reads, and whether it is the true one.
#[derive(Clone, Copy, PartialEq, Eq)]
pub struct Literal {
    pub source: Read,
    pub high: bool,
}

/// A row on a board: constant 0, or the product of its literals.
#[derive(Drop)]
pub enum Gate {
    Never,
    Product(Items<Literal>),
}

/// What a unit gives where it is enabled: a sum, or a register's visible Q.
#[derive(Drop)]
pub enum Gives {
    Sum(Items<Items<Literal>>),
    Visible(u32),
}

/// A unit, as a driver of its net.
#[derive(Drop)]
pub struct Driver {
    pub enable: Gate,
    pub gives: Gives,
    pub low: bool,
}

/// A register. D is the sum of the terms, inverted where low.
#[derive(Drop)]
pub struct Register {
    pub clock: u32,
    pub terms: Items<Items<Literal>>,
    pub low: bool,
    pub reset: Gate,
    pub preset: Gate,
}

/// GND, VCC, an Input port and a Both port by their places among the handed levels, and every other net.
#[derive(Clone, Copy, PartialEq, Eq)]
pub enum NetKind {
    Ground,
    Power,
    Handed(u32),
    Shared(u32),
    Inner,
}

/// A net: its kind, what pulls it, and the units that drive it, by number and rising.
#[derive(Drop)]
pub struct Wire {
    pub kind: NetKind,
    pub pull: Pull,
    pub drivers: Items<u32>,
}

/// A board as equations, and its ports by their nets.
#[derive(Drop)]
pub struct Circuit {
    pub nets: Items<Wire>,
    pub units: Items<Driver>,
    pub registers: Items<Register>,
    pub ports: Items<u32>,
}

/// The levels of a board at one moment: by net, by unit, by register.
#[derive(Drop)]
pub struct Levels {
    pub nets: Items<Level>,
    pub drives: Items<Level>,
    pub visible: Items<Level>,
}

/// What the registers of a board store, in register order.
#[derive(Drop)]
pub struct State {
    pub stored: Items<Level>,
}

/// The levels that a step hands to the Input and Both ports, in board order.
#[derive(Drop)]
pub struct Inputs {
    pub levels: Items<Level>,
}
