//! The parts of a board's units: their products and their inversion.
ghost use Rattle.std.specs.Prelude.{◌≡◌, ◌<◌, length, slice_get};
ghost use Rattle.board.specs.Joined.{equations_of};
ghost use Rattle.joiner.specs.Joined.{unit_part, logic_low as logic_low_of, register_low as register_low_of};

use board::Board;
use mig_base::{Circuit, Driver, Gives, Part, VarProduct};

/// The products of a part.
pub(crate) fn part_terms(board: &Board, unit: u32, part: Part) -> &[VarProduct]
    requires { unit < length (equations_of board.now).units }
    ensures { result.now ≡ (unit_part board.now unit part).terms }
{
    board.products(unit, part)
}

/// Whether a part is inverted.
pub(crate) fn is_inverted(board: &Board, unit: u32, part: Part) -> bool
    requires { unit < length (equations_of board.now).units }
    ensures { result ≡ (unit_part board.now unit part).low }
{
    let circuit = board.circuit();
    let units = circuit.units.items();
    let driver = &units[unit as usize];
    match part {
        Part::Logic => logic_low(circuit, driver),
        Part::Enable | Part::Reset | Part::Preset => false,
    }
}

/// The inversion of a combinational unit's pin, or of a register's D.
fn logic_low(circuit: &Circuit, driver: &Driver) -> bool
    ensures { result ≡ logic_low_of circuit.now driver.now.gives driver.now.low }
{
    match driver.gives {
        Gives::Sum(_) => driver.low,
        Gives::Visible(register) => register_low(circuit, register),
    }
}

/// The inversion of a register's D, and none where there is no such register.
fn register_low(circuit: &Circuit, register: u32) -> bool
    ensures { result ≡ register_low_of (slice_get circuit.now.registers register) }
{
    let registers = circuit.registers.items();
    match registers.get(register as usize) {
        Some(register) => register.low,
        None => false,
    }
}
