ghost use Rattle.std.specs.Prelude.{◌≡◌, ◌<◌, ◌≤◌, ◌+◌, ◌*◌, length, slice_get, Some, IfOk};
ghost use Rattle.mig_base.specs.Boards.{net_of};
ghost use Rattle.equations.specs.Tables.{IsTable};

use equations::NetNumbers;
use mig_base::{Items, NoMemory};
use std::alloc::Global;

/// The entries of one chip, one for each number that a pin may have.
const PINS: usize = 256;

/// The net of each pin of these chips.
pub(crate) fn pin_nets(
    alloc: Global,
    numbers: &NetNumbers,
    chips: usize,
) -> Result<Items<u32>, NoMemory>
    requires few { chips ≤ 64 }
    requires chips { chips ≤ length numbers.now.chips }
    ensures { IfOk result (IsTable (net_of numbers.now) chips) }
{
    let mut nets = Vec::with_capacity(alloc, PINS * chips)?;
    for place in 0..PINS * chips {
        nets.push(numbers.net_of((place / PINS) as u32, (place % PINS) as u8))?;
    }
    Ok(Items::new(nets))
}

/// The net of a pin, by such a table.
pub(crate) fn net_at(nets: &[u32], chip: u32, pin: u8) -> u32
    requires { 256 * chip + pin < length nets.now }
    ensures { slice_get nets.now (256 * chip + pin) ≡ Some result }
{
    nets[PINS * chip as usize + pin as usize]
}
