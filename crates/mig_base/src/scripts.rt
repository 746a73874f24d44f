use crate::{Inputs, Items};

/// The steps of a run.
#[derive(Drop)]
pub struct Script {
    pub steps: Items<Inputs>,
}

/// Why a script text was refused, with the number of the line, from 1, or of the net: 0 is GND, 1 is VCC, 2 the
/// first named net.
#[derive(Clone, Copy, Debug, PartialEq, Eq)]
pub enum ScriptError {
    Line { n: u32 },
    PortUnknown { n: u32 },
    PortTwice { n: u32 },
    PortLeft { net: u32 },
    LevelBad { n: u32 },
    StepsOver { n: u32 },
    NoEnd,
    Memory,
}
