ghost use Rattle.std.specs.Prelude.{IfOk, IsTrue};
ghost use Rattle.mig_base.specs.DeviceTables.{is_v8};
ghost use Rattle.mig_base.specs.WellFormed.{IsWellFormed};

use super::*;
use devices::idle;
use mig_base::{Cell, Enable, Form, Kind, Lit, Mode, Product, Row, Source};
use std::alloc::AllocError;
use std::test::Fail;

/// A GAL16V8 in complex mode with a gate of pins 2 and 3 at pin 19.
fn gate_chip(alloc: Global) -> Result<ChipCells, NoMemory>
    ensures kind { IfOk result (λ chip. IsTrue (is_v8 chip.kind)) }
    ensures well_formed { IfOk result (λ chip. IsWellFormed chip) }
{
    let mut cells = Vec::new(alloc);
    for pin in 12..19 {
        cells.push(idle(alloc, pin))?;
    }
    let lits = [
        Lit {
            source: Source::Pin(2),
            high: true,
        },
        Lit {
            source: Source::Pin(3),
            high: false,
        },
    ];
    let mut terms = Vec::new(alloc);
    terms.push(Product::new(alloc, &lits)?)?;
    cells.push(Cell {
        pin: 19,
        form: Form::Comb,
        low: true,
        pin_low: false,
        enable: Enable::Always,
        terms: Items::new(terms),
    })?;
    Ok(ChipCells {
        kind: Kind::Gal16V8,
        mode: Mode::Complex,
        cells: Items::new(cells),
        reset: Row::Never,
        preset: Row::Never,
    })
}

#[test]
fn writes_a_gate(rt: HostRuntime) -> Result<(), Fail> {
    let chip = gate_chip(rt.alloc())?;
    let fuses = fuses_of(rt.alloc(), &chip)?;
    assert_eq!(rt; fuses.bits.items().len(), 2194);
    for (at, blown) in fuses.bits.items().iter().enumerate() {
        let wanted = match at {
            0..64 => at != 32 && at != 37,
            64..2120 => false,
            _ => true,
        };
        assert_eq!(rt; *blown, wanted, "at {at}");
    }
    Ok(())
}

/// Kind, mode, width of the array, and the pin of each pair of columns.
const COLUMNS: [(Kind, Mode, usize, &[u8]); 6] = [
    (
        Kind::Gal16V8,
        Mode::Simple,
        32,
        &[2, 1, 3, 19, 4, 18, 5, 17, 6, 14, 7, 13, 8, 12, 9, 11],
    ),
    (
        Kind::Gal16V8,
        Mode::Complex,
        32,
        &[2, 1, 3, 18, 4, 17, 5, 16, 6, 15, 7, 14, 8, 13, 9, 11],
    ),
    (
        Kind::Gal16V8,
        Mode::Registered,
        32,
        &[2, 19, 3, 18, 4, 17, 5, 16, 6, 15, 7, 14, 8, 13, 9, 12],
    ),
    (
        Kind::Gal20V8,
        Mode::Simple,
        40,
        &[
            2, 1, 3, 23, 4, 22, 5, 21, 6, 20, 7, 17, 8, 16, 9, 15, 10, 14, 11, 13,
        ],
    ),
    (
        Kind::Gal20V8,
        Mode::Complex,
        40,
        &[
            2, 1, 3, 23, 4, 21, 5, 20, 6, 19, 7, 18, 8, 17, 9, 16, 10, 14, 11, 13,
        ],
    ),
    (
        Kind::Gal20V8,
        Mode::Registered,
        40,
        &[
            2, 23, 3, 22, 4, 21, 5, 20, 6, 19, 7, 18, 8, 17, 9, 16, 10, 15, 11, 14,
        ],
    ),
];

/// Fuses whose row r has the literal of column r, and of which some are turned. Each cell is used: AC1 is 1 in complex mode alone.
fn one_literal_a_row(
    alloc: Global,
    width: usize,
    mode: Mode,
    turned: &[usize],
) -> Result<Fuses, AllocError> {
    let mut bits = Vec::new(alloc);
    for row in 0..64 {
        for column in 0..width {
            bits.push(row < width && row != column)?;
        }
    }
    for (count, state) in [
        (72, false),
        (8, mode == Mode::Complex),
        (64, true),
        (1, mode != Mode::Registered),
        (1, mode != Mode::Simple),
    ] {
        for _fuse in 0..count {
            bits.push(state)?;
        }
    }
    for at in turned {
        if let Some(bit) = bits.get_mut(*at) {
            *bit = !*bit;
        }
    }
    Ok(Fuses {
        bits: Items::new(bits),
    })
}

/// The literals of the rows of a chip, in row order, each row with a mark behind it.
fn read_literals(alloc: Global, chip: &ChipCells) -> Result<Vec<Lit>, AllocError> {
    let mut lits = Vec::new(alloc);
    for cell in chip.cells.items().iter().rev() {
        if let Enable::Term(term) = &cell.enable {
            lits.extend_from_slice(term.items())?;
            lits.push(Lit::default())?;
        }
        for term in cell.terms.items() {
            lits.extend_from_slice(term.items())?;
            lits.push(Lit::default())?;
        }
    }
    Ok(lits)
}

/// The literal of each column, with a mark behind it. In registered mode each macrocell is a register, whose even column reads NOT Q.
fn column_literals(
    alloc: Global,
    kind: Kind,
    mode: Mode,
    pins: &[u8],
) -> Result<Vec<Lit>, AllocError> {
    let mut lits = Vec::new(alloc);
    for pin in pins {
        let is_register = mode == Mode::Registered && mig_base::is_cell(kind, *pin);
        for even in [true, false] {
            lits.push(if is_register {
                Lit {
                    source: Source::Reg(*pin),
                    high: !even,
                }
            } else {
                Lit {
                    source: Source::Pin(*pin),
                    high: even,
                }
            })?;
            lits.push(Lit::default())?;
        }
    }
    Ok(lits)
}

#[test]
fn reads_each_column(rt: HostRuntime) -> Result<(), Fail> {
    for (kind, mode, width, pins) in COLUMNS {
        let fuses = one_literal_a_row(rt.alloc(), width, mode, &[])?;
        assert!(rt; fuses.bits.items().len() < 2707);
        let chip = cells(rt.alloc(), kind, &fuses)?;
        assert!(rt; chip.kind == kind && chip.mode == mode);
        let read = read_literals(rt.alloc(), &chip)?;
        let wanted = column_literals(rt.alloc(), kind, mode, pins)?;
        assert!(rt; read.as_slice() == wanted.as_slice(), "{kind:?} {mode:?}");
    }
    Ok(())
}

/// Width, mode, fuses that are turned, and what is answered.
const REFUSED: [(usize, Mode, &[usize], ChipError); 4] = [
    (31, Mode::Simple, &[], ChipError::Count { found: 2130 }),
    (32, Mode::Simple, &[2192], ChipError::ModeBits),
    (
        32,
        Mode::Complex,
        &[2122, 2126],
        ChipError::Ac1InComplex { pin: 17 },
    ),
    (32, Mode::Complex, &[2125], ChipError::Memory),
];

#[test]
fn refuses_fuses(rt: HostRuntime) -> Result<(), Fail> {
    for (width, mode, turned, wanted) in REFUSED {
        let fuses = one_literal_a_row(rt.alloc(), width, mode, turned)?;
        assert!(rt; fuses.bits.items().len() < 2707);
        match cells(rt.alloc(), Kind::Gal16V8, &fuses) {
            Ok(_) => assert!(rt; wanted == ChipError::Memory),
            Err(refused) => assert!(rt; refused == wanted, "{refused:?}"),
        }
    }
    Ok(())
}

/// In simple mode: row 9 is disabled, the middle pin 15 has AC1 1, and pin 12 shows the sum.
#[test]
fn reads_settings(rt: HostRuntime) -> Result<(), Fail> {
    let fuses = one_literal_a_row(rt.alloc(), 32, Mode::Simple, &[2137, 2124, 2055])?;
    assert!(rt; fuses.bits.items().len() < 2707);
    let chip = cells(rt.alloc(), Kind::Gal16V8, &fuses)?;
    for cell in chip.cells.items() {
        let (form, terms) = match cell.pin {
            15 => (Form::Idle, 0),
            16 | 17 | 19 => (Form::Comb, 8),
            18 => (Form::Comb, 7),
            _ => (Form::Comb, 0),
        };
        assert!(rt; cell.form == form, "{}", cell.pin);
        assert!(rt; cell.terms.items().len() == terms, "{}", cell.pin);
        assert!(rt;
            cell.low == (form == Form::Comb && cell.pin != 12),
            "{}",
            cell.pin
        );
    }
    Ok(())
}
