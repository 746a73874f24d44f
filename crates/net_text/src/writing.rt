ghost use Rattle.std.specs.Prelude.{◌≡◌, ◌∷◌, ◌+◌, ◌<◌, ◌++◌, List, ℕ, map, length, IfOk, OnOk, string_bytes, slice_index_or, Ok, codes, if◌then◌else◌, []};
ghost use Rattle.std.specs.List.{flat_map, filter_map, list_any};
ghost use Rattle.mig_base.specs.BoardText.{net_names, net_of_text};
ghost use Rattle.mig_base.specs.WrittenBoard.{written_line, written_net, net_line, pull_line, chip_line, pin_line, port_words, is_pulled, IsWritable};

use mig_base::{ChipLine, Net, NetLine, NoMemory, PinLine, Port, Pull, kind_text};
use std::alloc::{AllocError, Global};
use text_lines::write_line;

/// The text of a board's wiring: the version, nets, pulls, chips, pins by chip and rising pin, and the end.
/// The wiring is one that a text can give, and the text gives it back. Fails for want of memory alone.
pub fn write_net(alloc: Global, net: &Net) -> Result<Vec<u8>, NoMemory>
    requires { IsWritable net.now }
    ensures written { IfOk result (λ text. text.items ≡ written_net net.now) }
    ensures read_back { IfOk result (λ text. net_of_text text.items ≡ Ok net.now) }
{
    let mut text = String::new(alloc);
    write_line(&mut text, &["board", version(net.nets.items())])?;
    write_nets(&mut text, net.nets.items())?;
    write_pulls(&mut text, net.nets.items())?;
    write_chips(&mut text, net.chips.items())?;
    write_pins(alloc, &mut text, net)?;
    write_line(&mut text, &["end"])?;
    Ok(text.into_bytes())
}

/// The version of the text: 2 exactly where a net is pulled.
fn version(nets: &[NetLine]) -> &'static str
    ensures { result.now ≡ (if list_any (λ l. is_pulled l.pull) nets.now then codes "2" else codes "1") }
{
    if any_pulled(nets) { "2" } else { "1" }
}

/// Whether a net is pulled.
fn any_pulled(nets: &[NetLine]) -> bool
    ensures { result ≡ list_any (λ l. is_pulled l.pull) nets.now }
{
    nets.iter().any(|line| match line.pull {
        Pull::Free => false,
        Pull::Up | Pull::Down => true,
    })
}

fn write_nets(text: &mut String, nets: &[NetLine]) -> Result<(), AllocError>
    ensures { OnOk result (string_bytes text.new ≡ string_bytes text.old ++ flat_map written_line (map net_line nets.now)) }
{
    for line in nets {
        let name = line.name.text();
        match line.port {
            Port::Inner => write_line(text, &["net", name])?,
            Port::Input => write_line(text, &["net", name, "in"])?,
            Port::Output => write_line(text, &["net", name, "out"])?,
            Port::Both => write_line(text, &["net", name, "io"])?,
        }
    }
    Ok(())
}

fn write_pulls(text: &mut String, nets: &[NetLine]) -> Result<(), AllocError>
    ensures { OnOk result (string_bytes text.new ≡ string_bytes text.old ++ flat_map written_line (filter_map pull_line nets.now)) }
{
    for line in nets {
        let name = line.name.text();
        match line.pull {
            Pull::Free => {}
            Pull::Up => write_line(text, &["pull", name, "up"])?,
            Pull::Down => write_line(text, &["pull", name, "down"])?,
        }
    }
    Ok(())
}

fn write_chips(text: &mut String, chips: &[ChipLine]) -> Result<(), AllocError>
    ensures { OnOk result (string_bytes text.new ≡ string_bytes text.old ++ flat_map written_line (map chip_line chips.now)) }
{
    for line in chips {
        write_chip(text, line.name.text(), kind_text(line.kind))?;
    }
    Ok(())
}

fn write_chip<'a>(text: &mut String, name: &'a str, kind: &'a str) -> Result<(), AllocError>
    ensures { OnOk result (string_bytes text.new ≡ string_bytes text.old ++ written_line (codes "chip" ∷ name.now ∷ kind.now ∷ [])) }
{
    write_line(text, &["chip", name, kind])
}

fn write_pins(alloc: Global, text: &mut String, net: &Net) -> Result<(), AllocError>
    requires { IsWritable net.now }
    ensures { OnOk result (string_bytes text.new ≡ string_bytes text.old ++ flat_map written_line (map (pin_line net.now) net.now.pins)) }
{
    let chips = net.chips.items();
    let nets = net.nets.items();
    for line in net.pins.items() {
        let pin = line.pin.to_string(alloc)?;
        let chip = chips[line.chip as usize].name.text();
        write_line(text, &["pin", chip, pin.as_str(), net_name(nets, line.net)])?;
    }
    Ok(())
}

/// The name of the net of this number: 0 is GND, 1 is VCC.
fn net_name(nets: &[NetLine], number: u32) -> &str
    requires { number < length (net_names nets.now) }
    ensures { result.now ≡ slice_index_or (net_names nets.now) number [] }
{
    match number {
        0 => "GND",
        1 => "VCC",
        _ => nets[number as usize - 2].name.text(),
    }
}
