use super::*;
use mig_base::{
    Cell, ChipCells, Enable, Form, Items, Kind, Lit, Mode, NoMemory, Product, Row, Source,
};
use std::alloc::Global;
use std::test::Fail;

/// A literal of the net of a pin, or of a register.
fn literal(source: Source, high: bool) -> Lit {
    Lit { source, high }
}

/// A cell with one term, or with none where there are no literals.
fn cell(alloc: Global, pin: u8, form: Form, lits: &[Lit]) -> Result<Cell, NoMemory> {
    let mut terms = Vec::new(alloc);
    if !lits.is_empty() {
        terms.push(Product::new(alloc, lits)?)?;
    }
    Ok(Cell {
        pin,
        form,
        low: form == Form::Comb,
        pin_low: false,
        enable: if form == Form::Idle {
            Enable::Never
        } else {
            Enable::Always
        },
        terms: Items::new(terms),
    })
}

/// A chip whose cells of these pins are idle but for the last one.
fn chip(
    alloc: Global,
    kind: Kind,
    mode: Mode,
    first: u8,
    last: Cell,
) -> Result<ChipCells, NoMemory> {
    let mut cells = Vec::new(alloc);
    for pin in first..last.pin {
        cells.push(cell(alloc, pin, Form::Idle, &[])?)?;
    }
    cells.push(last)?;
    Ok(ChipCells {
        kind,
        mode,
        cells: Items::new(cells),
        reset: Row::Never,
        preset: Row::Never,
    })
}

#[test]
fn lists_a_gate(rt: HostRuntime) -> Result<(), Fail> {
    let lits = [
        literal(Source::Pin(2), true),
        literal(Source::Pin(3), false),
    ];
    let gate = cell(rt.alloc(), 19, Form::Comb, &lits)?;
    let chip = chip(rt.alloc(), Kind::Pal16L8, Mode::Fixed, 12, gate)?;
    let text = listing(rt.alloc(), &chip)?;
    let wanted =
        "PAL16L8\n12 idle\n13 idle\n14 idle\n15 idle\n16 idle\n17 idle\n18 idle\n19 comb low enable 1\nterm 2 /3\n";
    assert_eq!(rt; text.as_slice(), wanted.as_bytes());
    Ok(())
}

#[test]
fn lists_registers(rt: HostRuntime) -> Result<(), Fail> {
    for (kind, high, wanted) in [
        (
            Kind::Gal22V10,
            false,
            "GAL22V10\nreset 2\npreset 0\n22 idle\n23 reg direct high enable 1\nterm /q23\n",
        ),
        (
            Kind::Gal22V10Q,
            true,
            "GAL22V10Q\nreset 2\npreset 0\n22 idle\n23 reg direct high enable 1\nterm q23\n",
        ),
    ] {
        let last = cell(rt.alloc(), 23, Form::Reg, &[literal(Source::Reg(23), high)])?;
        let mut chip = chip(rt.alloc(), kind, Mode::Fixed, 22, last)?;
        let reset = Product::new(rt.alloc(), &[literal(Source::Pin(2), true)])?;
        chip.reset = Row::Product(reset);
        let text = listing(rt.alloc(), &chip)?;
        assert_eq!(rt; text.as_slice(), wanted.as_bytes());
    }
    Ok(())
}

#[test]
fn lists_modes_and_enables(rt: HostRuntime) -> Result<(), Fail> {
    let mut last = cell(rt.alloc(), 22, Form::Reg, &[])?;
    last.low = true;
    last.pin_low = true;
    last.enable = Enable::LowPin(13);
    let registered = chip(rt.alloc(), Kind::Gal20V8, Mode::Registered, 22, last)?;
    let text = listing(rt.alloc(), &registered)?;
    let wanted = "GAL20V8 registered\n22 reg inverted low enable low 13\n";
    assert_eq!(rt; text.as_slice(), wanted.as_bytes());
    let mut output = cell(rt.alloc(), 12, Form::Comb, &[])?;
    output.low = false;
    let enable = Product::new(rt.alloc(), &[literal(Source::Pin(1), false)])?;
    output.enable = Enable::Term(enable);
    let complex = chip(rt.alloc(), Kind::Gal16V8, Mode::Complex, 12, output)?;
    let text = listing(rt.alloc(), &complex)?;
    let wanted = "GAL16V8 complex\n12 comb high enable /1\n";
    assert_eq!(rt; text.as_slice(), wanted.as_bytes());
    Ok(())
}
