//! The facts of the devices, and the rows of their AND arrays: literals of columns, read from fuses and written as fuses,
//! and macrocells made of rows.
#![tactic(auto)]

mod arrays;
mod macrocells;
mod pairs;
mod reading;
mod tables;
mod writing;

pub use arrays::{CELL_ROWS, CellRows, PRESET, RESET, ROWS, SIGNATURE, array_size, rows_of, width};
pub use macrocells::{combinational, idle, output, registered, registered_by_row};
pub use pairs::{chip_columns, columns, columns_of};
pub use reading::{all_zero, array_row, rows};
pub use tables::{
    cell_pins, even_reads_q, is_v8, ordinary_pins, pair_pins, pal_registers, top_pin,
};
pub use writing::{push_cell, push_row, push_states};

#[cfg(test)]
mod tests;
