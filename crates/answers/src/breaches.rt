ghost use Rattle.std.specs.Prelude.{◌≡◌, ◌++◌, ◌∷◌, [], OnOk, IfOk, string_bytes, codes};
ghost use Rattle.std.specs.Option.{option_map};
ghost use Rattle.std.specs.Fmt.{decimal};
ghost use Rattle.mig_base.specs.WrittenBoard.{written_line};
ghost use Rattle.answers.specs.Reasons.{reason_words, pin_text};
ghost use Rattle.answers.specs.BreachLines.{breach_reason, breached_line, node_words};

use crate::reasons::{write_node, write_pin};
use mig_base::{Breach, Name, Node, PinName};
use std::alloc::{AllocError, Global};

/// The line of a plan's breach. The node is the signal that gets no pin, where the breach names one.
pub fn breached(alloc: Global, node: Option<&Node>, breach: &Breach) -> Result<Vec<u8>, AllocError>
    ensures { IfOk result (λ v. v.items ≡ breached_line (option_map (λ n. n.now) node.entry) breach.now) }
{
    let mut text = String::new(alloc);
    write_breached(&mut text, node, breach)?;
    Ok(text.into_bytes())
}

/// The line of a breach, with the word before it.
pub(crate) fn write_breached(
    text: &mut String,
    node: Option<&Node>,
    breach: &Breach,
) -> Result<(), AllocError>
    ensures { OnOk result (string_bytes text.new ≡ string_bytes text.old ++ breached_line (option_map (λ n. n.now) node.entry) breach.now) }
{
    text.push_str("breached ")?;
    write_breach(text, node, breach)
}

/// The line of a breach.
fn write_breach(text: &mut String, node: Option<&Node>, breach: &Breach) -> Result<(), AllocError>
    ensures { OnOk result (string_bytes text.new ≡ string_bytes text.old ++ written_line (reason_words (breach_reason (option_map (λ n. n.now) node.entry) breach.now))) }
{
    match breach {
        Breach::ChipTwice { chip } => write_chip(text, "ChipTwice", chip),
        Breach::UnitUnknown { unit } => write_unit(text, "UnitUnknown", unit),
        Breach::UnitTwice { unit } => write_unit(text, "UnitTwice", unit),
        Breach::ChipUnknown { unit, chip } => write_unit_chip(text, "ChipUnknown", unit, chip),
        Breach::NoCell { unit, pin } => write_unit_number(text, "NoCell", unit, *pin as u32),
        Breach::PinTaken { unit, pin } => write_unit_number(text, "PinTaken", unit, *pin as u32),
        Breach::NotAbsorbable { unit } => write_unit(text, "NotAbsorbable", unit),
        Breach::Unplaced { unit } => write_unit(text, "Unplaced", unit),
        Breach::Mode { unit } => write_unit(text, "Mode", unit),
        Breach::Clock { unit } => write_unit(text, "Clock", unit),
        Breach::Phase { unit } => write_unit(text, "Phase", unit),
        Breach::ConeWide { unit, count } => write_unit_number(text, "ConeWide", unit, *count),
        Breach::PrimesOver { unit } => write_unit(text, "PrimesOver", unit),
        Breach::Reset { unit } => write_unit(text, "Reset", unit),
        Breach::Enable { unit } => write_unit(text, "Enable", unit),
        Breach::TermsOver { unit, needed, most } => write_terms(text, unit, *needed, *most),
        Breach::NoInput { chip, .. } => write_input(text, chip, node),
        Breach::FullRow { unit } => write_unit(text, "FullRow", unit),
    }
}

/// A breach that names a chip.
fn write_chip(text: &mut String, variant: &str, chip: &Name) -> Result<(), AllocError>
    ensures { OnOk result (string_bytes text.new ≡ string_bytes text.old ++ written_line (variant.now ∷ chip.now ∷ [])) }
{
    text.push_str(variant)?;
    text.push_str(" ")?;
    text.push_str(chip.text())?;
    text.push_str("\n")
}

/// The name of a variant, a space and a unit.
fn write_front(text: &mut String, variant: &str, unit: &PinName) -> Result<(), AllocError>
    ensures { OnOk result (string_bytes text.new ≡ string_bytes text.old ++ variant.now ++ 32 ∷ pin_text unit.now) }
{
    text.push_str(variant)?;
    text.push_str(" ")?;
    write_pin(text, unit)
}

/// A breach that names a unit.
fn write_unit(text: &mut String, variant: &str, unit: &PinName) -> Result<(), AllocError>
    ensures { OnOk result (string_bytes text.new ≡ string_bytes text.old ++ written_line (variant.now ∷ pin_text unit.now ∷ [])) }
{
    write_front(text, variant, unit)?;
    text.push_str("\n")
}

/// A breach that names a unit and a number.
fn write_unit_number(
    text: &mut String,
    variant: &str,
    unit: &PinName,
    number: u32,
) -> Result<(), AllocError>
    ensures { OnOk result (string_bytes text.new ≡ string_bytes text.old ++ written_line (variant.now ∷ pin_text unit.now ∷ decimal number ∷ [])) }
{
    write_front(text, variant, unit)?;
    writeln!(text, " {number}")
}

/// A breach that names a unit and a chip.
fn write_unit_chip(
    text: &mut String,
    variant: &str,
    unit: &PinName,
    chip: &Name,
) -> Result<(), AllocError>
    ensures { OnOk result (string_bytes text.new ≡ string_bytes text.old ++ written_line (variant.now ∷ pin_text unit.now ∷ chip.now ∷ [])) }
{
    write_front(text, variant, unit)?;
    text.push_str(" ")?;
    text.push_str(chip.text())?;
    text.push_str("\n")
}

/// A unit with too many terms, how many it needs, and the most that its cell has.
fn write_terms(text: &mut String, unit: &PinName, needed: u32, most: u32) -> Result<(), AllocError>
    ensures { OnOk result (string_bytes text.new ≡ string_bytes text.old ++ written_line (codes "TermsOver" ∷ pin_text unit.now ∷ decimal needed ∷ decimal most ∷ [])) }
{
    write_front(text, "TermsOver", unit)?;
    writeln!(text, " {needed} {most}")
}

/// A chip and the signal that gets no pin of it.
fn write_input(text: &mut String, chip: &Name, node: Option<&Node>) -> Result<(), AllocError>
    ensures { OnOk result (string_bytes text.new ≡ string_bytes text.old ++ written_line (codes "NoInput" ∷ chip.now ∷ node_words (option_map (λ n. n.now) node.entry))) }
{
    text.push_str("NoInput ")?;
    text.push_str(chip.text())?;
    if let Some(node) = node {
        text.push_str(" ")?;
        write_node(text, node)?;
    }
    text.push_str("\n")
}
