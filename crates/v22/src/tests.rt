ghost use Rattle.std.specs.Prelude.{◌≡◌, ◌∷◌, [], true, false, IfOk, IsTrue};
ghost use Rattle.mig_base.specs.declared.cells.Row.TheVariants as rows;
ghost use Rattle.mig_base.specs.Cells.{lit_of, reg_cell_22};
ghost use Rattle.mig_base.specs.DeviceTables.{is_22};
ghost use Rattle.mig_base.specs.WellFormed.{IsWellFormed};

use super::*;
use devices::idle;
use mig_base::{Cell, Enable, Form, Lit, Mode, Product, Row, Source};
use std::alloc::AllocError;
use std::test::Fail;

/// The pin of each pair of columns.
const PINS: [u8; 22] = [
    1, 23, 2, 22, 3, 21, 4, 20, 5, 19, 6, 18, 7, 17, 8, 16, 9, 15, 10, 14, 11, 13,
];

/// Fuses whose row r has the literal of column r mod 44, with the same S0 and S1 for each macrocell.
fn one_literal_a_row(
    alloc: Global,
    s0: bool,
    s1: bool,
    signature: usize,
) -> Result<Fuses, AllocError> {
    let mut bits = Vec::new(alloc);
    for _turn in 0..3 {
        for row in 0..44 {
            for column in 0..44 {
                bits.push(row != column)?;
            }
        }
    }
    for _cell in 0..10 {
        bits.push(s0)?;
        bits.push(s1)?;
    }
    push_states(signature, false, &mut bits)?;
    Ok(Fuses {
        bits: Items::new(bits),
    })
}

/// Adds the literals of a row with a mark behind them.
fn push_row(row: &Row, lits: &mut Vec<Lit>) -> Result<(), AllocError> {
    if let Row::Product(product) = row {
        lits.extend_from_slice(product.items())?;
    }
    lits.push(Lit::default())?;
    Ok(())
}

/// The literals of the rows of a chip, in row order, with a mark behind each row.
fn read_literals(alloc: Global, chip: &ChipCells) -> Result<Vec<Lit>, AllocError> {
    let mut lits = Vec::new(alloc);
    push_row(&chip.reset, &mut lits)?;
    for cell in chip.cells.items().iter().rev() {
        if let Enable::Term(term) = &cell.enable {
            lits.extend_from_slice(term.items())?;
        }
        lits.push(Lit::default())?;
        for term in cell.terms.items() {
            lits.extend_from_slice(term.items())?;
            lits.push(Lit::default())?;
        }
    }
    push_row(&chip.preset, &mut lits)?;
    Ok(lits)
}

/// The literal of each column three times over, with a mark behind each. The even column of a register reads this level of Q.
fn column_literals(alloc: Global, registered: bool, even_q: bool) -> Result<Vec<Lit>, AllocError> {
    let mut lits = Vec::new(alloc);
    for _turn in 0..3 {
        for pin in PINS {
            for even in [true, false] {
                lits.push(if registered && 14 <= pin {
                    Lit {
                        source: Source::Reg(pin),
                        high: even == even_q,
                    }
                } else {
                    Lit {
                        source: Source::Pin(pin),
                        high: even,
                    }
                })?;
                lits.push(Lit::default())?;
            }
        }
    }
    Ok(lits)
}

/// Kind, S0, S1, signature fuses, form, and whether D and the pin are inverted.
const SETTINGS: [(Kind, bool, bool, usize, Form, bool, bool); 6] = [
    (Kind::Gal22V10, false, true, 0, Form::Comb, true, false),
    (Kind::Gal22V10, true, true, 64, Form::Comb, false, false),
    (Kind::Gal22V10, false, false, 0, Form::Reg, false, true),
    (Kind::Gal22V10, true, false, 64, Form::Reg, false, false),
    (Kind::Gal22V10Q, false, true, 64, Form::Comb, true, false),
    (Kind::Gal22V10Q, true, false, 0, Form::Reg, false, false),
];

#[test]
fn reads_each_column(rt: HostRuntime) -> Result<(), Fail> {
    for (kind, s0, s1, signature, form, low, pin_low) in SETTINGS {
        let fuses = one_literal_a_row(rt.alloc(), s0, s1, signature)?;
        assert!(rt; fuses.bits.items().len() < 5893);
        let chip = cells(rt.alloc(), kind, &fuses)?;
        assert!(rt; chip.kind == kind && chip.mode == Mode::Fixed);
        for cell in chip.cells.items() {
            assert!(rt; cell.form == form && cell.low == low && cell.pin_low == pin_low);
        }
        let read = read_literals(rt.alloc(), &chip)?;
        let wanted = column_literals(rt.alloc(), form == Form::Reg, kind == Kind::Gal22V10Q)?;
        assert!(rt; read.as_slice() == wanted.as_slice(), "{kind:?} {s0} {s1}");
    }
    Ok(())
}

#[test]
fn counts_terms(rt: HostRuntime) -> Result<(), Fail> {
    let fuses = one_literal_a_row(rt.alloc(), false, true, 0)?;
    assert!(rt; fuses.bits.items().len() < 5893);
    let chip = cells(rt.alloc(), Kind::Gal22V10, &fuses)?;
    let terms = [8, 10, 12, 14, 16, 16, 14, 12, 10, 8];
    for (cell, count) in chip.cells.items().iter().zip(&terms) {
        assert_eq!(rt; cell.terms.items().len(), *count, "at {}", cell.pin);
    }
    Ok(())
}

#[test]
fn refuses_counts(rt: HostRuntime) -> Result<(), Fail> {
    for signature in [1, 63, 65] {
        let fuses = one_literal_a_row(rt.alloc(), false, true, signature)?;
        let count = fuses.bits.items().len();
        assert!(rt; count < 5894);
        let refused = cells(rt.alloc(), Kind::Gal22V10, &fuses);
        assert!(rt;
            matches!(refused, Err(ChipError::Count { found }) if found as usize == count),
            "{count}"
        );
    }
    Ok(())
}

/// A registered cell that is always enabled and has no terms.
fn register(alloc: Global, pin: u8, pin_low: bool) -> Cell
    ensures { result ≡ reg_cell_22 pin pin_low (rows.Product [] ∷ []) }
{
    Cell {
        pin,
        form: Form::Reg,
        low: false,
        pin_low,
        enable: Enable::Always,
        terms: Items::new(Vec::new(alloc)),
    }
}

/// The product of the net of a pin.
fn pin_row(alloc: Global, pin: u8) -> Result<Row, NoMemory>
    ensures { IfOk result (λ row. row ≡ rows.Product (lit_of false [] pin true ∷ [])) }
{
    let lits = [Lit {
        source: Source::Pin(pin),
        high: true,
    }];
    Ok(Row::Product(Product::new(alloc, &lits)?))
}

/// Registers at pins 14 and 23 that pin 2 resets and pin 3 presets. Pin 14 shows NOT Q and pin 23 Q.
fn two_registers(alloc: Global) -> Result<ChipCells, NoMemory>
    ensures kind { IfOk result (λ chip. IsTrue (is_22 chip.kind)) }
    ensures well_formed { IfOk result (λ chip. IsWellFormed chip) }
{
    let mut cells = Vec::new(alloc);
    cells.push(register(alloc, 14, true))?;
    for pin in 15..23 {
        cells.push(idle(alloc, pin))?;
    }
    cells.push(register(alloc, 23, false))?;
    let reset = pin_row(alloc, 2)?;
    let preset = pin_row(alloc, 3)?;
    Ok(ChipCells {
        kind: Kind::Gal22V10,
        mode: Mode::Fixed,
        cells: Items::new(cells),
        reset,
        preset,
    })
}

#[test]
fn writes_registers(rt: HostRuntime) -> Result<(), Fail> {
    let chip = two_registers(rt.alloc())?;
    let fuses = fuses_of(rt.alloc(), &chip)?;
    assert_eq!(rt; fuses.bits.items().len(), 5892);
    for (at, blown) in fuses.bits.items().iter().enumerate() {
        let wanted = match at {
            0..44 => at != 4,
            44..88 | 5368..5412 => true,
            5764..5808 => at != 5772,
            5808 => true,
            5810..5826 => at % 2 == 1,
            _ => false,
        };
        assert_eq!(rt; *blown, wanted, "at {at}");
    }
    Ok(())
}
