use super::*;
use mig_base::{Cell, Enable, Form, Lit, Source};
use std::alloc::AllocError;
use std::test::Fail;

/// So many fuses, blown up to this one but for some.
fn fuses(alloc: Global, count: usize, end: usize, zeros: &[usize]) -> Result<Fuses, AllocError> {
    let bits = (0..count)
        .map(|fuse| fuse < end && !zeros.contains(&fuse))
        .collect(alloc)?;
    Ok(Fuses {
        bits: Items::new(bits),
    })
}

/// Whether a cell has this one term.
fn has_term(cell: &Cell, lits: &[Lit]) -> bool {
    cell.terms.items().len() == 1 && cell.terms.items().iter().all(|term| *term.items() == *lits)
}

#[test]
fn reads_a_gate(rt: HostRuntime) -> Result<(), Fail> {
    let gate = fuses(rt.alloc(), 2048, 64, &[32, 37])?;
    assert!(rt; gate.bits.items().len() == 2048);
    let chip = cells(rt.alloc(), Kind::Pal16L8, &gate)?;
    assert_eq!(rt; chip.cells.items().len(), 8);
    let lits = [
        Lit {
            source: Source::Pin(2),
            high: true,
        },
        Lit {
            source: Source::Pin(3),
            high: false,
        },
    ];
    for cell in chip.cells.items() {
        if cell.pin == 19 {
            assert!(rt; cell.form == Form::Comb && cell.low && !cell.pin_low);
            assert!(rt; matches!(cell.enable, Enable::Always) && has_term(cell, &lits));
        } else {
            assert!(rt; cell.form == Form::Idle && cell.terms.items().is_empty());
        }
    }
    Ok(())
}

/// The first row of a registered macrocell has its own Q inverted.
#[test]
fn reads_a_register(rt: HostRuntime) -> Result<(), Fail> {
    for (kind, count, end, zero, pin, enable_pin) in [
        (Kind::Pal16R4, 2048, 544, 522, 17, 11),
        (Kind::Pal20R4, 2560, 680, 654, 20, 13),
    ] {
        let counter = fuses(rt.alloc(), count, end, &[zero])?;
        assert!(rt; counter.bits.items().len() == count);
        let chip = pal_cells(rt.alloc(), kind, &counter)?;
        let lits = [Lit {
            source: Source::Reg(pin),
            high: false,
        }];
        for cell in chip.cells.items() {
            if cell.pin == pin {
                assert!(rt;
                    cell.form == Form::Reg && !cell.low && cell.pin_low,
                    "at {pin}"
                );
                assert!(rt;
                    matches!(cell.enable, Enable::LowPin(p) if p == enable_pin),
                    "at {pin}"
                );
                assert!(rt; has_term(cell, &lits), "at {pin}");
            }
        }
    }
    Ok(())
}

#[test]
fn refuses_a_count(rt: HostRuntime) -> Result<(), Fail> {
    let short = fuses(rt.alloc(), 2047, 0, &[])?;
    assert!(rt; short.bits.items().len() == 2047);
    let refused = cells(rt.alloc(), Kind::Pal16L8, &short);
    assert!(rt; matches!(refused, Err(ChipError::Count { found: 2047 })));
    Ok(())
}

const LOGIC_20: [u8; 16] = [2, 1, 3, 18, 4, 17, 5, 16, 6, 15, 7, 14, 8, 13, 9, 11];

const REGISTERED_20: [u8; 16] = [2, 19, 3, 18, 4, 17, 5, 16, 6, 15, 7, 14, 8, 13, 9, 12];

const LOGIC_24: [u8; 20] = [
    2, 1, 3, 23, 4, 21, 5, 20, 6, 19, 7, 18, 8, 17, 9, 16, 10, 14, 11, 13,
];

const REGISTERED_24: [u8; 20] = [
    2, 23, 3, 22, 4, 21, 5, 20, 6, 19, 7, 18, 8, 17, 9, 16, 10, 15, 11, 14,
];

/// Kind, width of the array, the pin of each pair of columns, and the lowest and highest registered pin.
const COLUMNS: [(Kind, usize, &[u8], u8, u8); 8] = [
    (Kind::Pal16L8, 32, &LOGIC_20, 1, 0),
    (Kind::Pal16R4, 32, &REGISTERED_20, 14, 17),
    (Kind::Pal16R6, 32, &REGISTERED_20, 13, 18),
    (Kind::Pal16R8, 32, &REGISTERED_20, 12, 19),
    (Kind::Pal20L8, 40, &LOGIC_24, 1, 0),
    (Kind::Pal20R4, 40, &REGISTERED_24, 17, 20),
    (Kind::Pal20R6, 40, &REGISTERED_24, 16, 21),
    (Kind::Pal20R8, 40, &REGISTERED_24, 15, 22),
];

/// Fuses whose row r has the literal of column r. All further rows are 0.
fn one_literal_a_row(alloc: Global, width: usize) -> Result<Fuses, AllocError> {
    let mut bits = Vec::new(alloc);
    for row in 0..64 {
        for column in 0..width {
            bits.push(row < width && row != column)?;
        }
    }
    Ok(Fuses {
        bits: Items::new(bits),
    })
}

/// The literals of the rows of a chip, in row order, with a mark behind each row.
fn read_literals(alloc: Global, chip: &ChipCells) -> Result<Vec<Lit>, AllocError> {
    let mut lits = Vec::new(alloc);
    for cell in chip.cells.items().iter().rev() {
        if let Enable::Term(term) = &cell.enable {
            lits.extend_from_slice(term.items())?;
            lits.push(Lit::default())?;
        }
        for term in cell.terms.items() {
            lits.extend_from_slice(term.items())?;
            lits.push(Lit::default())?;
        }
    }
    Ok(lits)
}

/// The literal of each column, with a mark behind it. The even column of a register reads NOT Q.
fn column_literals(
    alloc: Global,
    pins: &[u8],
    lowest: u8,
    highest: u8,
) -> Result<Vec<Lit>, AllocError> {
    let mut lits = Vec::new(alloc);
    for pin in pins {
        for even in [true, false] {
            lits.push(if lowest <= *pin && *pin <= highest {
                Lit {
                    source: Source::Reg(*pin),
                    high: !even,
                }
            } else {
                Lit {
                    source: Source::Pin(*pin),
                    high: even,
                }
            })?;
            lits.push(Lit::default())?;
        }
    }
    Ok(lits)
}

#[test]
fn reads_each_column(rt: HostRuntime) -> Result<(), Fail> {
    for (kind, width, pins, lowest, highest) in COLUMNS {
        let fuses = one_literal_a_row(rt.alloc(), width)?;
        assert!(rt; fuses.bits.items().len() < 2561);
        let chip = match kind {
            Kind::Pal16L8 | Kind::Pal16R4 | Kind::Pal16R6 | Kind::Pal16R8 => {
                cells(rt.alloc(), kind, &fuses)?
            }
            Kind::Pal20L8 | Kind::Pal20R4 | Kind::Pal20R6 | Kind::Pal20R8 => {
                pal_cells(rt.alloc(), kind, &fuses)?
            }
            _ => continue,
        };
        let read = read_literals(rt.alloc(), &chip)?;
        let wanted = column_literals(rt.alloc(), pins, lowest, highest)?;
        assert!(rt; read.as_slice() == wanted.as_slice(), "{kind:?}");
        for cell in chip.cells.items() {
            let registered = lowest <= cell.pin && cell.pin <= highest;
            assert!(rt;
                (cell.form == Form::Reg) == registered,
                "{kind:?} {}",
                cell.pin
            );
        }
    }
    Ok(())
}
