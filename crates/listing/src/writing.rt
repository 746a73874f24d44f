ghost use Rattle.std.specs.Prelude.{◌≡◌, ◌++◌, ◌∷◌, [], map, IfOk, OnOk, codes, string_bytes};
ghost use Rattle.std.specs.List.{flat_map};
ghost use Rattle.mig_base.specs.DeviceTables.{kind_name};
ghost use Rattle.mig_base.specs.WrittenBoard.{written_line};
ghost use Rattle.mig_base.specs.WrittenPlan.{mode_words};
ghost use Rattle.listing.specs.ListedChip as listed;
ghost use Rattle.listing.specs.SpacedWords.{spaced};

use mig_base::{
    Cell, ChipCells, Enable, Form, Kind, Lit, Mode, NoMemory, Product, Row, Source, kind_text,
};
use std::alloc::{AllocError, Global};

/// The listing of a chip: its kind and mode, the reset and preset of a 22V10, and its cells by rising pin, each with its
/// terms behind it. `docs/listing.md` has the words. Fails for want of memory alone.
pub fn listing(alloc: Global, cells: &ChipCells) -> Result<Vec<u8>, NoMemory>
    ensures { IfOk result (λ text. text.items ≡ listed.listed cells.now) }
{
    let mut text = String::new(alloc);
    write_kind(&mut text, cells.kind, cells.mode)?;
    write_controls(&mut text, cells.kind, &cells.reset, &cells.preset)?;
    write_cells(&mut text, cells.cells.items())?;
    Ok(text.into_bytes())
}

/// The line of the kind, with the mode of a V8.
fn write_kind(text: &mut String, kind: Kind, mode: Mode) -> Result<(), AllocError>
    ensures { OnOk result (string_bytes text.new ≡ string_bytes text.old ++ written_line (kind_name kind ∷ mode_words mode)) }
{
    let kind = kind_text(kind);
    match mode {
        Mode::Fixed => writeln!(text, "{kind}"),
        Mode::Simple => writeln!(text, "{kind} simple"),
        Mode::Complex => writeln!(text, "{kind} complex"),
        Mode::Registered => writeln!(text, "{kind} registered"),
    }
}

/// The lines of the reset and the preset of a 22V10.
fn write_controls(
    text: &mut String,
    kind: Kind,
    reset: &Row,
    preset: &Row,
) -> Result<(), AllocError>
    ensures { OnOk result (string_bytes text.new ≡ string_bytes text.old ++ flat_map written_line (listed.control_lines kind reset.now preset.now)) }
{
    match kind {
        Kind::Gal22V10 | Kind::Gal22V10Q => {
            write_control(text, "reset", reset)?;
            write_control(text, "preset", preset)
        }
        _ => Ok(()),
    }
}

/// A line of a word and a row.
fn write_control(text: &mut String, word: &str, row: &Row) -> Result<(), AllocError>
    ensures { OnOk result (string_bytes text.new ≡ string_bytes text.old ++ written_line (word.now ∷ listed.row_words row.now)) }
{
    text.push_str(word)?;
    write_row(text, row)?;
    text.push_str("\n")?;
    Ok(())
}

/// The words of a row, each with a space before it.
fn write_row(text: &mut String, row: &Row) -> Result<(), AllocError>
    ensures { OnOk result (string_bytes text.new ≡ string_bytes text.old ++ spaced (listed.row_words row.now)) }
{
    match row {
        Row::Never => text.push_str(" 0"),
        Row::Product(product) => write_product(text, product.items()),
    }
}

/// The words of a product, each with a space before it.
fn write_product(text: &mut String, lits: &[Lit]) -> Result<(), AllocError>
    ensures { OnOk result (string_bytes text.new ≡ string_bytes text.old ++ spaced (listed.product_words lits.now)) }
{
    if lits.is_empty() {
        text.push_str(" 1")
    } else {
        write_literals(text, lits)
    }
}

/// The words of literals, each with a space before it.
fn write_literals(text: &mut String, lits: &[Lit]) -> Result<(), AllocError>
    ensures { OnOk result (string_bytes text.new ≡ string_bytes text.old ++ spaced (map listed.lit_word lits.now)) }
{
    for lit in lits {
        write_literal(text, *lit)?;
    }
    Ok(())
}

/// The word of a literal with a space before it.
fn write_literal(text: &mut String, lit: Lit) -> Result<(), AllocError>
    ensures { OnOk result (string_bytes text.new ≡ string_bytes text.old ++ 32 ∷ listed.lit_word lit) }
{
    match (lit.source, lit.high) {
        (Source::Pin(pin), true) => write!(text, " {pin}"),
        (Source::Pin(pin), false) => write!(text, " /{pin}"),
        (Source::Reg(pin), true) => write!(text, " q{pin}"),
        (Source::Reg(pin), false) => write!(text, " /q{pin}"),
    }
}

/// The cells with their terms.
fn write_cells(text: &mut String, cells: &[Cell]) -> Result<(), AllocError>
    ensures { OnOk result (string_bytes text.new ≡ string_bytes text.old ++ flat_map written_line (flat_map listed.cell_lines cells.now)) }
{
    for cell in cells {
        write_cell(text, cell)?;
        write_terms(text, cell.terms.items())?;
    }
    Ok(())
}

/// The line of a cell.
fn write_cell(text: &mut String, cell: &Cell) -> Result<(), AllocError>
    ensures { OnOk result (string_bytes text.new ≡ string_bytes text.old ++ written_line (listed.cell_words cell.now)) }
{
    match cell.form {
        Form::Idle => writeln!(text, "{} idle", cell.pin),
        Form::Comb => {
            write!(text, "{} comb {}", cell.pin, level(cell.low))?;
            write_enable(text, &cell.enable)?;
            Ok(())
        }
        Form::Reg => {
            let (d, shown) = (d_input(cell.low), level(cell.pin_low));
            write!(text, "{} reg {d} {shown}", cell.pin)?;
            write_enable(text, &cell.enable)?;
            Ok(())
        }
    }
}

/// How a pin shows a sum or Q.
fn level(low: bool) -> &'static str
    ensures { result.now ≡ listed.level_word low }
{
    if low { "low" } else { "high" }
}

/// How D takes its sum.
fn d_input(low: bool) -> &'static str
    ensures { result.now ≡ listed.d_word low }
{
    if low { "inverted" } else { "direct" }
}

/// The end of the line of a cell: its enable.
fn write_enable(text: &mut String, enable: &Enable) -> Result<(), AllocError>
    ensures { OnOk result (string_bytes text.new ≡ string_bytes text.old ++ spaced (codes "enable" ∷ listed.enable_words enable.now) ++ codes "\n") }
{
    match enable {
        Enable::Always => text.push_str(" enable 1\n"),
        Enable::Never => text.push_str(" enable 0\n"),
        Enable::LowPin(pin) => writeln!(text, " enable low {pin}"),
        Enable::Term(term) => {
            text.push_str(" enable")?;
            write_product(text, term.items())?;
            text.push_str("\n")
        }
    }
}

/// The lines of terms.
fn write_terms(text: &mut String, terms: &[Product]) -> Result<(), AllocError>
    ensures { OnOk result (string_bytes text.new ≡ string_bytes text.old ++ flat_map written_line (map listed.term_words terms.now)) }
{
    for term in terms {
        write_term(text, term.items())?;
    }
    Ok(())
}

/// The line of a term.
fn write_term(text: &mut String, lits: &[Lit]) -> Result<(), AllocError>
    ensures { OnOk result (string_bytes text.new ≡ string_bytes text.old ++ written_line (listed.term_words lits.now)) }
{
    text.push_str("term")?;
    write_product(text, lits)?;
    text.push_str("\n")?;
    Ok(())
}
