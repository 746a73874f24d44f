ghost use Rattle.std.specs.Prelude.{◌≡◌, length, replicate, slice_set, true, false, IfOk};
ghost use Rattle.mig_base.specs.First.{made_from};
ghost use Rattle.board.specs.Joined.{equations_of};
ghost use Rattle.joiner.specs.AbsorbedNets.{AreAbsorbedNets, AreListed, sole_listed};
ghost use Rattle.joiner.specs.Marked.{needed_at};

use crate::marks::Marks;
use crate::pass::unit_at_net;
use board::Board;
use mig_base::{Items, NoMemory, Var};
use std::alloc::Global;
use structure::flag_at;

/// So many flags that are false.
pub(crate) fn no_flags(alloc: Global, count: usize) -> Result<Items<bool>, NoMemory>
    ensures { IfOk result (λ flags. flags ≡ replicate count false) }
{
    let mut flags = Vec::with_capacity(alloc, count)?;
    for _ in 0..count {
        flags.push(false)?;
    }
    Ok(Items::new(flags))
}

/// Makes the flag at a place true, where there is one.
pub(crate) fn raise(flags: &mut Items<bool>, place: usize)
    ensures { flags.new ≡ slice_set flags.old place true }
{
    if place < flags.items().len() {
        flags.set(place, true);
    }
}

/// Whether each unit of so many is listed.
fn listed_units(alloc: Global, units: usize, absorbed: &[u32]) -> Result<Items<bool>, NoMemory>
    ensures { IfOk result (AreListed units absorbed.now) }
{
    let mut flags = no_flags(alloc, units)?;
    for unit in absorbed {
        raise(&mut flags, *unit as usize);
    }
    Ok(flags)
}

/// The only one of these drivers, where it is listed.
fn sole_driver(drivers: &[u32], listed: &[bool]) -> Option<u32>
    ensures { result ≡ sole_listed listed.now drivers.now }
{
    match drivers {
        [unit] => {
            if flag_at(listed, *unit as usize) {
                Some(*unit)
            } else {
                None
            }
        }
        _ => None,
    }
}

/// For each net the absorbed unit that alone drives it, if one does. Units that the board doesn't have count for nothing.
pub fn absorbed_nets(
    alloc: Global,
    board: &Board,
    absorbed: &[u32],
) -> Result<Items<Option<u32>>, NoMemory>
    ensures { IfOk result (AreAbsorbedNets board.now absorbed.now) }
{
    let listed = listed_units(alloc, board.units().len(), absorbed)?;
    let flags = listed.items();
    let mut nets = Vec::with_capacity(alloc, board.nets() as usize)?;
    for net in 0..board.nets() {
        nets.push(sole_driver(board.drivers(net), flags))?;
    }
    Ok(Items::new(nets))
}

/// The absorbed unit of a net that is marked.
fn needed_unit(nets: &[Option<u32>], marks: &Marks, net: u32) -> Option<u32>
    ensures { result ≡ needed_at nets.now marks.now net }
{
    if marks.has(Var::Net(net)) {
        unit_at_net(nets, net)
    } else {
        None
    }
}

/// The table of absorbed nets without those that are not marked.
pub(crate) fn needed_nets(
    alloc: Global,
    board: &Board,
    nets: &[Option<u32>],
    marks: &Marks,
) -> Result<Vec<Option<u32>>, NoMemory>
    ensures { IfOk result (λ needed. needed.items ≡ made_from (needed_at nets.now marks.now) 0 (length (equations_of board.now).nets)) }
{
    let mut needed = Vec::with_capacity(alloc, board.nets() as usize)?;
    for net in 0..board.nets() {
        needed.push(needed_unit(nets, marks, net))?;
    }
    Ok(needed)
}
