ghost use Rattle.std.specs.Prelude.{◌≡◌, ◌+◌, ◌-◌, ◌<◌, ◌≤◌, ◌++◌, map, filter, length, not, slice_get, IfOk, OnOk};
ghost use Rattle.std.specs.List.{list_any, filter_map};
ghost use Rattle.mig_base.specs.Boards.{places_from, is_port as port_line};
ghost use Rattle.new_board.specs.NewFiles.{stands_on as stands, kept_numbers as numbers_kept, number_in as number_among, new_number as number_new, new_chip_line as chip_line_new, new_pins_from, new_net as net_new};

use mig_base::{ChipLine, Items, Net, NetLine, NoMemory, PinLine, Port};
use new_board::FittedChip;
use std::alloc::Global;

/// Whether a new chip has a pin on a net.
fn stands_on(net: u32, chip: &FittedChip) -> bool
    ensures { result ≡ stands net chip.now }
{
    chip.wires.items().iter().any(|wire| wire.net == net)
}

/// Whether one of these chips has a pin on a net.
fn is_wired(net: u32, chips: &[FittedChip]) -> bool
    ensures { result ≡ list_any (stands net) chips.now }
{
    chips.iter().any(|chip| stands_on(net, chip))
}

/// Whether a named net is a port.
fn is_port(line: &NetLine) -> bool
    ensures { result ≡ port_line line.now }
{
    !matches!(line.port, Port::Inner)
}

/// Adds the ports, by their nets.
fn push_ports(lines: &[NetLine], numbers: &mut Vec<u32>) -> Result<(), NoMemory>
    requires { length lines.now ≤ 1024 }
    ensures { OnOk result (numbers.new.items ≡ numbers.old.items ++ places_from port_line 2 lines.now) }
{
    for (place, line) in lines.iter().enumerate() {
        if is_port(line) {
            numbers.push(2 + place as u32)?;
        }
    }
    Ok(())
}

/// Adds the inner nets on which a new chip has a pin.
fn push_inner(
    lines: &[NetLine],
    chips: &[FittedChip],
    numbers: &mut Vec<u32>,
) -> Result<(), NoMemory>
    requires { length lines.now ≤ 1024 }
    ensures { OnOk result (numbers.new.items ≡ numbers.old.items ++ filter (λ n. list_any (stands n) chips.now) (places_from (λ l. not (port_line l)) 2 lines.now)) }
{
    for (place, line) in lines.iter().enumerate() {
        let net = 2 + place as u32;
        if !is_port(line) && is_wired(net, chips) {
            numbers.push(net)?;
        }
    }
    Ok(())
}

/// The named nets that the new wiring keeps: all ports in old order, then the inner ones on which a new chip has a pin.
fn kept_numbers(alloc: Global, net: &Net, chips: &[FittedChip]) -> Result<Vec<u32>, NoMemory>
    requires { length net.now.nets ≤ 1024 }
    ensures { IfOk result (λ kept. kept.items ≡ numbers_kept net.now chips.now) }
{
    let mut kept = Vec::new(alloc);
    push_ports(net.nets.items(), &mut kept)?;
    push_inner(net.nets.items(), chips, &mut kept)?;
    Ok(kept)
}

/// The place of a net among these, or their end.
fn number_in(kept: &[u32], net: u32) -> usize
    ensures value { result ≡ number_among kept.now net }
    ensures within { result ≤ length kept.now }
{
    for (place, number) in kept.iter().enumerate() {
        if *number == net {
            return place;
        }
    }
    kept.len()
}

/// The new number of a net: GND and VCC keep theirs, the kept ones are numbered from 2 on.
fn new_number(kept: &[u32], net: u32) -> u32
    requires { length kept.now ≤ 1024 }
    ensures { result ≡ number_new kept.now net }
{
    if net < 2 {
        net
    } else {
        2 + number_in(kept, net) as u32
    }
}

/// Adds the pins of a new chip of this number.
fn push_pins(
    number: u32,
    chip: &FittedChip,
    kept: &[u32],
    pins: &mut Vec<PinLine>,
) -> Result<(), NoMemory>
    requires { length kept.now ≤ 1024 }
    ensures { OnOk result (pins.new.items ≡ pins.old.items ++ map (λ w. record { chip = number; pin = w.pin; net = number_new kept.now w.net }) chip.now.wires) }
{
    for wire in chip.wires.items() {
        pins.push(PinLine {
            chip: number,
            pin: wire.pin,
            net: new_number(kept, wire.net),
        })?;
    }
    Ok(())
}

/// The wired pins, by chip and rising pin.
fn new_pins(alloc: Global, chips: &[FittedChip], kept: &[u32]) -> Result<Items<PinLine>, NoMemory>
    requires kept { length kept.now ≤ 1024 }
    requires chips { length chips.now ≤ 64 }
    ensures { IfOk result (λ pins. pins ≡ new_pins_from kept.now 0 chips.now) }
{
    let mut pins = Vec::new(alloc);
    for (number, chip) in chips.iter().enumerate() {
        push_pins(number as u32, chip, kept, &mut pins)?;
    }
    Ok(Items::new(pins))
}

/// The chips' lines.
fn new_chips(alloc: Global, chips: &[FittedChip]) -> Result<Items<ChipLine>, NoMemory>
    ensures { IfOk result (λ lines. lines ≡ map chip_line_new chips.now) }
{
    let mut lines = Vec::new(alloc);
    for chip in chips {
        lines.push(ChipLine {
            name: chip.name,
            kind: chip.cells.kind,
        })?;
    }
    Ok(Items::new(lines))
}

/// The lines of the kept nets.
fn new_nets(alloc: Global, nets: &[NetLine], kept: &[u32]) -> Result<Items<NetLine>, NoMemory>
    ensures { IfOk result (λ lines. lines ≡ filter_map (λ n. slice_get nets.now (n - 2)) kept.now) }
{
    let mut lines = Vec::new(alloc);
    for number in kept {
        if let Some(line) = net_line(nets, *number) {
            lines.push(line)?;
        }
    }
    Ok(Items::new(lines))
}

/// The line of a named net, by its number.
fn net_line(nets: &[NetLine], number: u32) -> Option<NetLine>
    ensures { result ≡ slice_get nets.now (number - 2) }
{
    nets.get((number as usize).saturating_sub(2)).copied()
}

/// The new wiring: the kept nets, the chips, and by chip and rising pin the wired pins. Fails for want of memory alone.
pub fn new_net(alloc: Global, net: &Net, chips: &[FittedChip]) -> Result<Net, NoMemory>
    requires nets { length net.now.nets ≤ 1024 }
    requires chips { length chips.now ≤ 64 }
    ensures { IfOk result (λ made. made ≡ net_new net.now chips.now) }
{
    let kept = kept_numbers(alloc, net, chips)?;
    let nets = new_nets(alloc, net.nets.items(), kept.as_slice())?;
    let lines = new_chips(alloc, chips)?;
    let pins = new_pins(alloc, chips, kept.as_slice())?;
    Ok(Net {
        nets,
        chips: lines,
        pins,
    })
}
