use crate::faults::Fault;
use listing::listing;
use mig_base::{Net, NetLine};
use new_board::{FittedChip, PinNet};
use std::alloc::{AllocError, Global};

/// The name of the net of this number among the named nets; GND and VCC stand before them.
fn net_text(nets: &[NetLine], number: u32) -> &str {
    match number {
        0 => "GND",
        1 => "VCC",
        _ => match nets.get(number as usize - 2) {
            Some(line) => line.name.text(),
            None => "",
        },
    }
}

/// Adds a line for each wired pin.
fn write_wires(text: &mut String, nets: &[NetLine], wires: &[PinNet]) -> Result<(), AllocError> {
    for wire in wires {
        writeln!(text, "wire {} {}", wire.pin, net_text(nets, wire.net))?;
    }
    Ok(())
}

/// Adds a new chip: its name, the listing of its cells and its wired pins.
fn write_chip(
    alloc: Global,
    text: &mut String,
    nets: &[NetLine],
    chip: &FittedChip,
) -> Result<(), Fault> {
    let name = chip.name;
    writeln!(text, "chip {}", name.text())?;
    let cells = listing(alloc, &chip.cells)?;
    for byte in cells {
        text.push(char::from(byte))?;
    }
    write_wires(text, nets, chip.wires.items())?;
    Ok(())
}

/// Adds the new chips of a plan for a board of this wiring.
pub fn write_chips(
    alloc: Global,
    text: &mut String,
    net: &Net,
    chips: &[FittedChip],
) -> Result<(), Fault> {
    for chip in chips {
        write_chip(alloc, text, net.nets.items(), chip)?;
    }
    Ok(())
}
