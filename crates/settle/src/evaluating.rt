ghost use Rattle.std.specs.Prelude.{◌≡◌, ◌<◌, length, map};
ghost use Rattle.mig_base.specs.declared.circuit.Levels.{Levels as LevelsOf};
ghost use Rattle.level_laws.specs.Settled.{IsSettled, drive_level as level_driven};
ghost use Rattle.ranks.specs.Order.{IsOrder};
ghost use Rattle.mig_base.specs.Reads.{IsNode};
ghost use Rattle.settle.specs.Rules.{HasLengths, new_level, placed, with_drives};

use crate::nets::net_level;
use crate::values::{drive_level, visible_level};
use mig_base::{Circuit, Level, Levels, Read};

/// Makes a node anew.
pub(crate) fn renew(
    circuit: &Circuit,
    node: Read,
    stored: &[Level],
    inputs: &[Level],
    out: &mut Levels,
)
    requires node { IsNode circuit.now node }
    requires stored { length stored.now ≡ length circuit.now.registers }
    requires nets { length out.old.nets ≡ length circuit.now.nets }
    requires visible { length out.old.visible ≡ length circuit.now.registers }
    ensures { out.new ≡ placed out.old node (new_level circuit.now stored.now inputs.now out.old node) }
{
    match node {
        Read::OfNet(net) => {
            let net = net as usize;
            let level = net_level(circuit, inputs, out, &circuit.nets.items()[net]);
            out.nets.set(net, level);
        }
        Read::OfRegister(register) => {
            let place = register as usize;
            let level = visible_level(out, &circuit.registers.items()[place], stored[place]);
            out.visible.set(place, level);
        }
    }
}

/// Makes every drive anew.
fn renew_drives(circuit: &Circuit, out: &mut Levels)
    requires { length out.old.drives ≡ length circuit.now.units }
    ensures { out.new ≡ with_drives out.old (map (level_driven out.old) circuit.now.units) }
{
    for (unit, driver) in circuit.units.items().iter().enumerate() {
        let level = drive_level(out, driver);
        out.drives.set(unit, level);
    }
}

/// The settled levels of a circuit under these stored levels and inputs, in place of any others. There are no others. The
/// order has every node once, behind all that it reads; a node is made anew once.
pub(crate) fn settle_circuit(
    circuit: &Circuit,
    order: &[Read],
    stored: &[Level],
    inputs: &[Level],
    out: &mut Levels,
)
    requires order { IsOrder circuit.now order.now }
    requires stored { length stored.now ≡ length circuit.now.registers }
    requires out { HasLengths circuit.now out.old }
    ensures settled { IsSettled circuit.now stored.now inputs.now out.new }
    ensures only { (other : LevelsOf) → IsSettled circuit.now stored.now inputs.now other → out.new ≡ other }
    ensures lengths { HasLengths circuit.now out.new }
{
    for node in order {
        renew(circuit, *node, stored, inputs, out);
    }
    renew_drives(circuit, out);
}
