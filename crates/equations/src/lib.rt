//! A board of wiring and chips as equations.
#![tactic(auto)]

mod board_parts;
mod circuit;
mod driver_lists;
mod drivers;
mod kinds;
mod net_numbers;
mod numbers;
mod pin_table;
mod units;

pub use board_parts::Parts;
pub use circuit::circuit_of;
pub use net_numbers::{At, NetNumbers};
pub use units::{BoardUnit, is_unit, units_of};
