ghost use Rattle.breach_names.specs.NamedVariables.{NamesVariable};

use board::Board;
use mig_base::{Breach, Node, PinName};
use std::alloc::AllocError;

/// Adds the name of a pin.
fn write_pin(text: &mut String, pin: &PinName) -> Result<(), AllocError> {
    let name = pin.chip;
    write!(text, "{}.{}", name.text(), pin.pin)
}

/// Adds the name of a variable's node.
fn write_node(text: &mut String, node: &Node) -> Result<(), AllocError> {
    match node {
        Node::Gnd => text.push_str("GND"),
        Node::Vcc => text.push_str("VCC"),
        Node::Named(name) => text.push_str(name.text()),
        Node::Private(pin) => write_pin(text, pin),
        Node::Reg(pin) => {
            write_pin(text, pin)?;
            text.push_str(":Q")
        }
    }
}

/// Adds the word of a breach, the unit that it names, and the numbers that stand behind it.
fn write_unit(
    text: &mut String,
    word: &str,
    unit: &PinName,
    numbers: &[u32],
) -> Result<(), AllocError> {
    write!(text, "{word} ")?;
    write_pin(text, unit)?;
    for number in numbers {
        write!(text, " {number}")?;
    }
    Ok(())
}

/// Adds a breach of a plan for this board, with what it names.
fn write_words(text: &mut String, board: &Board, breach: Breach) -> Result<(), AllocError>
    requires { NamesVariable board.now breach }
{
    match breach {
        Breach::ChipTwice { chip } => write!(text, "ChipTwice {}", chip.text()),
        Breach::UnitUnknown { unit } => write_unit(text, "UnitUnknown", &unit, &[]),
        Breach::UnitTwice { unit } => write_unit(text, "UnitTwice", &unit, &[]),
        Breach::ChipUnknown { unit, chip } => {
            write_unit(text, "ChipUnknown", &unit, &[])?;
            write!(text, " {}", chip.text())
        }
        Breach::NoCell { unit, pin } => write_unit(text, "NoCell", &unit, &[u32::from(pin)]),
        Breach::PinTaken { unit, pin } => write_unit(text, "PinTaken", &unit, &[u32::from(pin)]),
        Breach::NotAbsorbable { unit } => write_unit(text, "NotAbsorbable", &unit, &[]),
        Breach::Unplaced { unit } => write_unit(text, "Unplaced", &unit, &[]),
        Breach::Mode { unit } => write_unit(text, "Mode", &unit, &[]),
        Breach::Clock { unit } => write_unit(text, "Clock", &unit, &[]),
        Breach::Phase { unit } => write_unit(text, "Phase", &unit, &[]),
        Breach::ConeWide { unit, count } => write_unit(text, "ConeWide", &unit, &[count]),
        Breach::PrimesOver { unit } => write_unit(text, "PrimesOver", &unit, &[]),
        Breach::Reset { unit } => write_unit(text, "Reset", &unit, &[]),
        Breach::Enable { unit } => write_unit(text, "Enable", &unit, &[]),
        Breach::TermsOver { unit, needed, most } => {
            write_unit(text, "TermsOver", &unit, &[needed, most])
        }
        Breach::NoInput { chip, variable } => {
            write!(text, "NoInput {} ", chip.text())?;
            write_node(text, &board.node(variable))
        }
        Breach::FullRow { unit } => write_unit(text, "FullRow", &unit, &[]),
    }
}

/// Adds the line of a breach of a plan for this board.
pub fn write_breach(text: &mut String, board: &Board, breach: Breach) -> Result<(), AllocError>
    requires { NamesVariable board.now breach }
{
    write_words(text, board, breach)?;
    text.push_str("\n")
}
