ghost use Rattle.std.specs.Prelude.{◌≡◌, ◌≤◌, map, length, IfOk};
ghost use Rattle.mig_base.specs.Boards.{circuit as circuit_of};
ghost use Rattle.new_board.specs.NewFiles.{fitted as fit_on, new_net as net_new};
ghost use Rattle.new_board.specs.OneForOne.{old_board, same_chips as chips_same, one_for_one};

use crate::one_for_one::{place_lines, plan_chips, same_chips};
use avail::{Old, PlannedChip};
use mig_base::{ChipCells, Circuit, Items, Net, NoMemory, Plan};
use new_board::{FittedChip, Rebuilt};
use new_cells::Columns;
use new_wirings::new_net;
use std::alloc::Global;

/// A new chip with its units, fitted.
fn fitted(alloc: Global, old: &Old, chip: &PlannedChip) -> Result<FittedChip, NoMemory>
    ensures { IfOk result (λ made. made ≡ fit_on old.now chip.now) }
{
    let columns = Columns::new(alloc, old, chip)?;
    columns.fitted(alloc)
}

/// These new chips, fitted.
fn fit(alloc: Global, old: &Old, chips: &[PlannedChip]) -> Result<Vec<FittedChip>, NoMemory>
    ensures { IfOk result (λ made. made.items ≡ map (fit_on old.now) chips.now) }
{
    let mut made = Vec::new(alloc);
    for chip in chips {
        made.push(fitted(alloc, old, chip)?)?;
    }
    Ok(made)
}

/// The board that the plan makes in which each old chip becomes one of the same name and each unit keeps its pin.
/// The circuit is that of the board. Fails for want of memory alone.
pub fn rebuild(
    alloc: Global,
    net: &Net,
    chips: &[ChipCells],
    circuit: &Circuit,
) -> Result<Rebuilt, NoMemory>
    requires nets { length net.now.nets ≤ 1024 }
    requires lines { length net.now.chips ≤ 64 }
    requires chips { length chips.now ≡ length net.now.chips }
    requires circuit { circuit.now ≡ circuit_of net.now chips.now }
    ensures chips { IfOk result (λ made. made.chips ≡ map (fit_on (old_board net.now chips.now)) (chips_same net.now chips.now)) }
    ensures plan { IfOk result (λ made. made.plan ≡ one_for_one net.now chips.now) }
    ensures net { IfOk result (λ made. made.net ≡ net_new net.now (map (fit_on (old_board net.now chips.now)) (chips_same net.now chips.now))) }
{
    let old = Old::new(alloc, net, chips, circuit)?;
    let planned = same_chips(alloc, &old, chips)?;
    let plan = Plan {
        chips: plan_chips(alloc, planned.as_slice())?,
        lines: place_lines(alloc, net, old.units.as_slice())?,
    };
    let made = fit(alloc, &old, planned.as_slice())?;
    let net = new_net(alloc, net, made.as_slice())?;
    Ok(Rebuilt {
        chips: Items::new(made),
        plan,
        net,
    })
}
