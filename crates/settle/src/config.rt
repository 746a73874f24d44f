ghost use Rattle.std.specs.Prelude.{◌≡◌, ◌+◌, length, true, None, replicate, IfOk};
ghost use Rattle.mig_base.specs.declared.levels.Level.TheVariants.{Zero as Low, X as Unknown};
ghost use Rattle.level_laws.specs.Runs.{power_up as stored_at_start, shown_levels};
ghost use Rattle.ranks.specs.Order.{IsOrder};
ghost use Rattle.settle.specs.Configs.{IsMadeFor, handed_count as count_of_handed, handed_nets, last_of, is_handed as takes_level};
ghost use Rattle.settle.specs.Rules.{HasLengths, unknown_levels};

use crate::values::level_at;
use mig_base::{Circuit, Items, Level, Levels, NetKind, NoMemory, Read};
use reader_lists::{Marks, Readers, readers_of};
use std::alloc::Global;

/// A board between two steps: what its registers store and, once a step was made, the last inputs and the levels settled
/// under both. It has all the room that a step uses, and by which a step finds what changes: the nets that are handed a
/// level, what reads each node, and marks.
#[derive(Drop)]
pub struct Config {
    pub(crate) stored: Items<Level>,
    pub(crate) last: Items<Level>,
    pub(crate) stepped: bool,
    pub(crate) levels: Levels,
    pub(crate) handed: Items<u32>,
    pub(crate) readers: Readers,
    pub(crate) marks: Marks,
}

/// Whether a net of this kind is handed a level.
fn is_handed(kind: NetKind) -> bool
    ensures { result ≡ takes_level kind }
{
    matches!(kind, NetKind::Handed(_) | NetKind::Shared(_))
}

/// How many levels a circuit is handed: one for each Input and Both port.
pub(crate) fn count_handed(circuit: &Circuit) -> usize
    ensures { result ≡ count_of_handed circuit.now }
{
    let mut count = 0;
    for wire in circuit.nets.items() {
        if is_handed(wire.kind) {
            count += 1;
        }
    }
    count
}

/// The nets that are handed a level.
fn nets_handed(alloc: Global, circuit: &Circuit) -> Result<Items<u32>, NoMemory>
    ensures { IfOk result (λ nets. nets ≡ handed_nets circuit.now) }
{
    let wires = circuit.nets.items();
    if wires.len() > u32::MAX as usize {
        return Err(NoMemory);
    }
    let mut nets = Vec::new(alloc);
    for (net, wire) in wires.iter().enumerate() {
        if is_handed(wire.kind) {
            nets.push(net as u32)?;
        }
    }
    Ok(Items::new(nets))
}

/// A list of so many equal levels.
pub(crate) fn filled(alloc: Global, level: Level, count: usize) -> Result<Vec<Level>, NoMemory>
    ensures { IfOk result (λ levels. levels.items ≡ replicate count level) }
{
    let mut levels = Vec::with_capacity(alloc, count)?;
    for _ in 0..count {
        levels.push(level)?;
    }
    Ok(levels)
}

/// Room for the levels of a circuit: one for each net, drive and register, all X. Only want of memory refuses it.
pub(crate) fn room_for(alloc: Global, circuit: &Circuit) -> Result<Levels, NoMemory>
    ensures lengths { IfOk result (HasLengths circuit.now) }
    ensures levels { IfOk result (λ levels. levels ≡ unknown_levels circuit.now) }
{
    let nets = filled(alloc, Level::X, circuit.nets.items().len())?;
    let drives = filled(alloc, Level::X, circuit.units.items().len())?;
    let visible = filled(alloc, Level::X, circuit.registers.items().len())?;
    Ok(Levels {
        nets: Items::new(nets),
        drives: Items::new(drives),
        visible: Items::new(visible),
    })
}

/// A circuit at power-up: all registers store 0, and no step was made. Only want of memory refuses it.
pub(crate) fn at_power_up(
    alloc: Global,
    circuit: &Circuit,
    order: &[Read],
) -> Result<Config, NoMemory>
    requires { IsOrder circuit.now order.now }
    ensures made { IfOk result (λ config. IsMadeFor circuit.now config) }
    ensures stored { IfOk result (λ config. config.stored ≡ stored_at_start circuit.now) }
    ensures last { IfOk result (λ config. last_of config ≡ None) }
    ensures levels { IfOk result (λ config. config.levels ≡ unknown_levels circuit.now) }
{
    let stored = filled(alloc, Level::Zero, circuit.registers.items().len())?;
    let last = filled(alloc, Level::X, count_handed(circuit))?;
    let levels = room_for(alloc, circuit)?;
    let handed = nets_handed(alloc, circuit)?;
    let readers = readers_of(alloc, circuit, order)?;
    let marks = Marks::new(alloc, circuit)?;
    Ok(Config {
        stored: Items::new(stored),
        last: Items::new(last),
        stepped: false,
        levels,
        handed,
        readers,
        marks,
    })
}

/// The level of every port after a step, in board order: one place for each.
pub(crate) fn show_ports(circuit: &Circuit, config: &Config, out: &mut [Level])
    requires stepped { config.now.stepped ≡ true }
    requires made { IsMadeFor circuit.now config.now }
    requires places { length out.old ≡ length circuit.now.ports }
    ensures { out.new ≡ shown_levels circuit.now config.now.levels }
{
    let ports = circuit.ports.items();
    for place in 0..ports.len() {
        out[place] = level_at(config.levels.nets.items(), ports[place]);
    }
}
