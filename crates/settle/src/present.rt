ghost use Rattle.std.specs.Prelude.{◌≡◌};
ghost use Rattle.board.specs.Joined.{equations_of};
ghost use Rattle.settle.specs.Rules.{drive_of as drive_in, resolved_of as resolved_in, visible_of as visible_in};

use crate::nets::{drive_of, resolved_of, visible_of};
use board::Board;
use mig_base::{Inputs, Level, Levels, State};

/// The drive of a unit as these levels give it: its own level, inverted where low, behind its enable. X where there is no
/// such unit.
pub fn drive_level_of(b: &Board, levels: &Levels, unit: u32) -> Level
    ensures drive { result ≡ drive_in (equations_of b.now) levels.now unit }
{
    drive_of(b.circuit(), levels, unit)
}

/// The level of a net as these inputs and the drives of its units, as they stand, make it. X where there is no such net.
pub fn net_level_of(b: &Board, inputs: &Inputs, levels: &Levels, net: u32) -> Level
    ensures level { result ≡ resolved_in (equations_of b.now) inputs.now.levels levels.now net }
{
    resolved_of(b.circuit(), inputs.levels.items(), levels, net)
}

/// The visible Q of a register as these levels and what it stores make it, by its place among the registers. X where there
/// is no such register.
pub fn visible_level_of(b: &Board, state: &State, levels: &Levels, register: u32) -> Level
    ensures visible { result ≡ visible_in (equations_of b.now) state.now.stored levels.now register }
{
    visible_of(b.circuit(), state.stored.items(), levels, register)
}
