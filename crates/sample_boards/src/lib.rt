//! Boards as values, made from the texts of their files, with what must hold of them; and the definitions, computed on two boards.
#![tactic(auto)]

mod by_definition;
mod sampling;

pub use by_definition::{
    board_file_has_wiring, board_has_equations, fuse_file_has_fuses, fuses_make_chip,
    registers_have_equations,
};
pub use sampling::{SampleError, sample, sample_of};
