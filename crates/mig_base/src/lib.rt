//! The shared types of the project, its limits, and the definitions that contracts cite.
#![tactic(auto)]

mod cells;
mod circuit;
mod comparing;
mod files;
mod items;
mod jedec;
mod kinds;
mod levels;
mod limits;
mod names;
mod nets;
mod plans;
mod scripts;

pub use cells::{Cell, ChipCells, ChipError, Enable, Form, Fuses, Lit, Product, Row, Source};
pub use circuit::{
    Circuit, Driver, Gate, Gives, Inputs, Levels, Literal, NetKind, Read, Register, State, Wire,
};
pub use comparing::{Alone, Gap, Trace};
pub use files::{FileName, NameError, Stem, file_name};
pub use items::{Items, NoMemory};
pub use jedec::{Field, JedError};
pub use kinds::{
    CLOCK_PIN, Kind, Mode, enable_pin, is_22, is_cell, kind_of, kind_text, kinds_are_named, pins,
};
pub use levels::{Level, and3, not3, or3, read_level, resolve2};
pub use limits::{
    MOST_CHIPS, MOST_FILE_BYTES, MOST_FUSES, MOST_NETS, MOST_PLAN_LINES, MOST_PRIMES,
    MOST_SCRIPT_BYTES, MOST_STEPS, MOST_VARIABLES,
};
pub use names::Name;
pub use nets::{
    BoardError, ChipLine, Net, NetError, NetLine, Node, PinLine, PinName, Port, Pull, Var, VarLit,
    VarProduct,
};
pub use plans::{Breach, Part, Plan, PlanChip, PlanError, PlanLine};
pub use scripts::{Script, ScriptError};
