ghost use Rattle.std.specs.Prelude.{◌≡◌, map};
ghost use Rattle.mig_base.specs.Levels.{resolve2 as resolve_of, level_at as level_in_place};
ghost use Rattle.level_laws.specs.Settled.{wire_level};
ghost use Rattle.settle.specs.Rules.{wired, pulled_from, drive_of as driven_by, net_level as level_of_net, resolved_of as resolved_in, visible_of as visible_in};

use crate::values::{drive_level, level_at, visible_level};
use mig_base::{Circuit, Level, Levels, NetKind, Pull, Wire, resolve2};

/// The drive of a unit, and X where there is none.
pub(crate) fn drive_of(circuit: &Circuit, levels: &Levels, unit: u32) -> Level
    ensures { result ≡ driven_by circuit.now levels.now unit }
{
    let units = circuit.units.items();
    let unit = unit as usize;
    if unit < units.len() {
        drive_level(levels, &units[unit])
    } else {
        Level::X
    }
}

/// What these units and one more driver make of a net.
fn wired_with(circuit: &Circuit, levels: &Levels, handed: Level, drivers: &[u32]) -> Level
    ensures { result ≡ resolve_of handed (wired (map (driven_by circuit.now levels.now) drivers.now)) }
{
    let mut level = handed;
    for unit in drivers {
        level = resolve2(level, drive_of(circuit, levels, *unit));
    }
    level
}

/// What a pull makes of a net with this level.
fn pulled(pull: Pull, level: Level) -> Level
    ensures { result ≡ pulled_from pull level }
{
    match (level, pull) {
        (Level::Z, Pull::Up) => Level::One,
        (Level::Z, Pull::Down) => Level::Zero,
        _ => level,
    }
}

/// The level of a net, its drives made anew.
pub(crate) fn net_level(circuit: &Circuit, inputs: &[Level], levels: &Levels, wire: &Wire) -> Level
    ensures { result ≡ level_of_net circuit.now inputs.now levels.now wire.now }
{
    let drivers = wire.drivers.items();
    match wire.kind {
        NetKind::Ground => Level::Zero,
        NetKind::Power => Level::One,
        NetKind::Handed(place) => level_at(inputs, place),
        NetKind::Shared(place) => {
            let handed = level_at(inputs, place);
            pulled(wire.pull, wired_with(circuit, levels, handed, drivers))
        }
        NetKind::Inner => pulled(wire.pull, wired_with(circuit, levels, Level::Z, drivers)),
    }
}

/// What the drives of these units, as they stand, and one more driver make of a net.
fn wired_now(levels: &Levels, handed: Level, drivers: &[u32]) -> Level
    ensures { result ≡ resolve_of handed (wired (map (level_in_place levels.now.drives) drivers.now)) }
{
    let drives = levels.drives.items();
    let mut level = handed;
    for unit in drivers {
        level = resolve2(level, level_at(drives, *unit));
    }
    level
}

/// The level of a net, by the drives as they stand.
fn resolved_level(inputs: &[Level], levels: &Levels, wire: &Wire) -> Level
    ensures { result ≡ wire_level inputs.now levels.now wire.now }
{
    let drivers = wire.drivers.items();
    match wire.kind {
        NetKind::Ground => Level::Zero,
        NetKind::Power => Level::One,
        NetKind::Handed(place) => level_at(inputs, place),
        NetKind::Shared(place) => {
            let handed = level_at(inputs, place);
            pulled(wire.pull, wired_now(levels, handed, drivers))
        }
        NetKind::Inner => pulled(wire.pull, wired_now(levels, Level::Z, drivers)),
    }
}

/// The level of a net by its number, by the drives as they stand; X where there is none.
pub(crate) fn resolved_of(circuit: &Circuit, inputs: &[Level], levels: &Levels, net: u32) -> Level
    ensures { result ≡ resolved_in circuit.now inputs.now levels.now net }
{
    let nets = circuit.nets.items();
    let net = net as usize;
    if net < nets.len() {
        resolved_level(inputs, levels, &nets[net])
    } else {
        Level::X
    }
}

/// The visible Q of a register by its place; X where there is none.
pub(crate) fn visible_of(
    circuit: &Circuit,
    stored: &[Level],
    levels: &Levels,
    register: u32,
) -> Level
    ensures { result ≡ visible_in circuit.now stored.now levels.now register }
{
    let registers = circuit.registers.items();
    let place = register as usize;
    if place >= registers.len() {
        return Level::X;
    }
    if place >= stored.len() {
        return Level::X;
    }
    visible_level(levels, &registers[place], stored[place])
}
