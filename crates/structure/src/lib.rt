//! What follows from a board's equations: pure nodes, live units, absorbable units, alias nets and products over variables.
#![tactic(auto)]

mod absorbing;
mod aliases;
mod derived;
mod liveness;
mod products;
mod purity;
mod reading;
mod sets;
mod sorted;
#[cfg(test)]
mod tests;
mod unit_reads;
mod variables;

pub use absorbing::absorbable_of;
pub use aliases::{alias_of, aliases_of, variable_literal};
pub use derived::{Structure, structure_of};
pub use liveness::live_of;
pub use products::{UnitProducts, products_of, unit_of};
pub use purity::purity_of;
pub use sets::{NodeSet, flag_at};
pub use sorted::variable_product;
pub use variables::all_variables;
