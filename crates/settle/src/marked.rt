ghost use Rattle.std.specs.Prelude.{ℕ, ◌≡◌, ◌⊎◌, ◌<◌, length, map};
ghost use Rattle.level_laws.specs.Settled.{IsSettled, drive_level as level_driven};
ghost use Rattle.ranks.specs.Order.{IsOrder};
ghost use Rattle.mig_base.specs.Reads.{IsNode};
ghost use Rattle.reader_lists.specs.Tables.{AreReaders};
ghost use Rattle.settle.specs.Following.{AreMarked, DriveFits, Renewed, Visited};
ghost use Rattle.settle.specs.Rules.{HasLengths, with_drives};

use crate::evaluating::renew;
use crate::values::{drive_level, level_of, same_level};
use mig_base::{Circuit, Driver, Level, Levels, Read};
use reader_lists::{Marks, Readers};

/// Makes a node anew where it is marked, and marks what reads it where its level changes.
fn visit(
    circuit: &Circuit,
    readers: &Readers,
    node: Read,
    stored: &[Level],
    inputs: &[Level],
    marks: &mut Marks,
    out: &mut Levels,
)
    requires node { IsNode circuit.now node }
    requires stored { length stored.now ≡ length circuit.now.registers }
    requires nets { length out.old.nets ≡ length circuit.now.nets }
    requires visible { length out.old.visible ≡ length circuit.now.registers }
    ensures { Visited circuit.now readers.now stored.now inputs.now node marks.old out.old marks.new out.new }
{
    if !marks.has(node) {
        return;
    }
    marks.clear(node);
    let was = level_of(out, node);
    renew(circuit, node, stored, inputs, out);
    if same_level(was, level_of(out, node)) {
        return;
    }
    marks.mark_all(readers.of(node));
}

/// Makes the drive of a unit anew where it is marked.
fn renew_unit(unit: usize, driver: &Driver, marks: &mut Marks, out: &mut Levels)
    requires { unit < length out.old.drives }
    ensures { Renewed unit driver.now marks.old out.old marks.new out.new }
{
    if !marks.has_unit(unit) {
        return;
    }
    marks.clear_unit(unit);
    let level = drive_level(out, driver);
    out.drives.set(unit, level);
}

/// Makes every marked drive anew.
fn renew_units(circuit: &Circuit, marks: &mut Marks, out: &mut Levels)
    requires lengths { length out.old.drives ≡ length circuit.now.units }
    requires units { (u : ℕ) → u < length circuit.now.units → DriveFits circuit.now marks.old out.old u }
    ensures { out.new ≡ with_drives out.old (map (level_driven out.old) circuit.now.units) }
{
    for (unit, driver) in circuit.units.items().iter().enumerate() {
        renew_unit(unit, driver, marks, out);
    }
}

/// The settled levels of a circuit under these stored levels and inputs, in place of levels where each node and each drive
/// that isn't marked fits the others. Only what is marked, or reads what changes, is made anew.
pub(crate) fn settle_marked(
    circuit: &Circuit,
    order: &[Read],
    readers: &Readers,
    stored: &[Level],
    inputs: &[Level],
    marks: &mut Marks,
    out: &mut Levels,
)
    requires order { IsOrder circuit.now order.now }
    requires readers { AreReaders circuit.now readers.now }
    requires stored { length stored.now ≡ length circuit.now.registers }
    requires out { HasLengths circuit.now out.old }
    requires marked { AreMarked circuit.now stored.now inputs.now marks.old out.old }
    ensures settled { IsSettled circuit.now stored.now inputs.now out.new }
    ensures lengths { HasLengths circuit.now out.new }
{
    for node in order {
        visit(circuit, readers, *node, stored, inputs, marks, out);
    }
    renew_units(circuit, marks, out);
}
