ghost use Rattle.std.specs.Prelude.{◌≡◌, ◌+◌, ◌≤◌, ◌<◌, ◌++◌, ◌||◌, ◌&&◌, ◌==◌, ◌/◌, not, map, length, Option, IfOk, IfSome, OnOk, Some, None, if◌then◌else◌};
ghost use Rattle.mig_base.specs.DeviceTables.{is_ordinary};
ghost use Rattle.mig_base.specs.BoardText as spec;
ghost use Rattle.net_text.specs.Statements.{says_of, all_says};

use crate::judging::{is_on_pin, is_pull_of, place};
use crate::lines::BoardLine;
use crate::parts::Parts;
use crate::says::Said;
use mig_base::{ChipLine, Items, Kind, Name, Net, NetLine, NoMemory, PinLine, Pull, pins};
use std::alloc::{AllocError, Global};

/// The wiring that lines say.
pub(crate) fn wiring(alloc: Global, lines: &[BoardLine], parts: Parts) -> Result<Net, NoMemory>
    requires nets_said { parts.nets.items ≡ spec.nets_in (all_says lines.now) }
    requires chips_said { parts.chips.items ≡ spec.chips_in (all_says lines.now) }
    requires few_nets { length parts.nets.items ≤ 1024 }
    requires few_chips { length parts.chips.items ≤ 64 }
    ensures { IfOk result (λ net. net ≡ spec.net_in (all_says lines.now)) }
{
    let pulled = pulled_nets(alloc, lines, parts.nets.as_slice())?;
    let pins = wired_pins(alloc, lines, parts.nets.as_slice(), parts.chips.as_slice())?;
    Ok(Net {
        nets: Items::new(pulled),
        chips: Items::new(parts.chips),
        pins: Items::new(pins),
    })
}

fn pulled_nets(
    alloc: Global,
    lines: &[BoardLine],
    nets: &[NetLine],
) -> Result<Vec<NetLine>, AllocError>
    ensures { IfOk result (λ pulled. pulled.items ≡ map (spec.with_pull (all_says lines.now)) nets.now) }
{
    nets.iter().map(|l| with_pull(lines, l)).collect(alloc)
}

fn with_pull(lines: &[BoardLine], line: &NetLine) -> NetLine
    ensures { result ≡ spec.with_pull (all_says lines.now) line.now }
{
    NetLine {
        name: line.name,
        port: line.port,
        pull: pull_of(lines, &line.name),
    }
}

/// The pull of a net.
fn pull_of(lines: &[BoardLine], net: &Name) -> Pull
    ensures { result ≡ spec.pull_in (all_says lines.now) net.now }
{
    for line in lines {
        if is_pull_of(&line.says, net.bytes()) {
            return pull_said(&line.says);
        }
    }
    Pull::Free
}

fn pull_said(said: &Said) -> Pull
    ensures { result ≡ spec.pull_on (says_of said.now) }
{
    match said {
        Said::Pull { pull, .. } => *pull,
        _ => Pull::Free,
    }
}

/// The pin lines of the chips, by chip and rising pin.
fn wired_pins(
    alloc: Global,
    lines: &[BoardLine],
    nets: &[NetLine],
    chips: &[ChipLine],
) -> Result<Vec<PinLine>, AllocError>
    requires nets_said { nets.now ≡ spec.nets_in (all_says lines.now) }
    requires few_nets { length nets.now ≤ 1024 }
    requires few_chips { length chips.now ≤ 64 }
    ensures { IfOk result (λ pins. pins.items ≡ spec.pins_in (all_says lines.now) 0 chips.now) }
{
    let mut wired = Vec::new(alloc);
    for (j, chip) in chips.iter().enumerate() {
        add_pins(&mut wired, lines, nets, j as u32, chip)?;
    }
    Ok(wired)
}

/// Adds the pin lines of a chip.
fn add_pins(
    wired: &mut Vec<PinLine>,
    lines: &[BoardLine],
    nets: &[NetLine],
    j: u32,
    chip: &ChipLine,
) -> Result<(), AllocError>
    requires nets_said { nets.now ≡ spec.nets_in (all_says lines.now) }
    requires few_nets { length nets.now ≤ 1024 }
    ensures { OnOk result (wired.new.items ≡ wired.old.items ++ spec.pins_of_chip (all_says lines.now) j chip.now) }
{
    for pin in 1..pins(chip.kind) + 1 {
        if is_ordinary_pin(chip.kind, pin) {
            if let Some(net) = net_on_pin(lines, nets, &chip.name, pin) {
                wired.push(PinLine { chip: j, pin, net })?;
            }
        }
    }
    Ok(())
}

/// Whether the pin is neither ground nor power.
fn is_ordinary_pin(kind: Kind, pin: u8) -> bool
    ensures { result ≡ is_ordinary kind pin }
{
    let last = pins(kind);
    pin != last / 2 && pin != last
}

/// The net that a line puts the pin on.
fn net_on_pin(lines: &[BoardLine], nets: &[NetLine], chip: &Name, pin: u8) -> Option<u32>
    requires few_nets { length nets.now ≤ 1024 }
    ensures { result ≡ spec.net_at (all_says lines.now) (spec.net_names nets.now) chip.now pin }
{
    for line in lines {
        if is_on_pin(&line.says, chip.bytes(), pin as u32) {
            return net_said(nets, &line.says);
        }
    }
    None
}

/// The number of the net that a pin line names.
fn net_said(nets: &[NetLine], said: &Said) -> Option<u32>
    requires few_nets { length nets.now ≤ 1024 }
    ensures { result ≡ spec.net_on (spec.net_names nets.now) (says_of said.now) }
{
    match said {
        Said::Pin { net, .. } => net_number(nets, net.bytes()),
        _ => None,
    }
}

fn net_number(nets: &[NetLine], name: &[u8]) -> Option<u32>
    requires few_nets { length nets.now ≤ 1024 }
    ensures { result ≡ spec.place_named name.now (spec.net_names nets.now) }
{
    match place(nets, name) {
        Some(number) => Some(number as u32),
        None => None,
    }
}
