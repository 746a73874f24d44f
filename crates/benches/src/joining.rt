//! Joins the parity of 32 ports, which goes through six levels of units, into one function.
use crate::ports;
use crate::units::absorbable_units;
use board::Board;
use joiner::joined;
use mig_base::{NoMemory, Part};
use std::alloc::Global;

/// The nodes that the last unit of the board took, with all units absorbed that can be.
fn join_last(alloc: Global, board: &Board) -> Result<u64, NoMemory> {
    let absorbed = absorbable_units(alloc, board)?;
    let Ok(count) = u32::try_from(board.units().len()) else {
        return Err(NoMemory);
    };
    if count == 0 {
        return Err(NoMemory);
    }
    let joined = joined(alloc, board, absorbed.as_slice(), count - 1, Part::Logic);
    let Ok(mut part) = joined else {
        return Err(NoMemory);
    };
    Ok(part.rails.graph().nodes())
}

/// The nodes of the parity over ports of this kind: `in` for Input ports, which are pure, or `io` for Both ports.
pub fn nodes(alloc: Global, port: &str) -> Result<u64, NoMemory> {
    let board = ports::board(alloc, port)?;
    join_last(alloc, &board)
}
