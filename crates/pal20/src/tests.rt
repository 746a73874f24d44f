use super::*;
use mig_base::{Enable, Form, Items, Lit, Source};
use std::alloc::AllocError;
use std::test::Fail;

/// Pin of a register, the first of its rows, and the column of NOT Q.
const REGISTERS: [(u8, usize, usize); 4] = [(20, 16, 14), (19, 24, 18), (18, 32, 22), (17, 40, 26)];

/// The column of the one literal of a row, if it has one.
fn column_of(row: usize) -> Option<usize> {
    REGISTERS
        .iter()
        .find(|(_, first, _)| *first == row)
        .map(|(_, _, column)| *column)
}

/// The fuses of four registers, each of which turns at each clock.
fn four_registers(alloc: Global, rows: usize) -> Result<Fuses, AllocError> {
    let mut bits = Vec::new(alloc);
    for row in 0..rows {
        let literal = column_of(row);
        for column in 0..40 {
            bits.push(match literal {
                Some(at) => at != column,
                None => false,
            })?;
        }
    }
    Ok(Fuses {
        bits: Items::new(bits),
    })
}

#[test]
fn reads_registers(rt: HostRuntime) -> Result<(), Fail> {
    let fuses = four_registers(rt.alloc(), 64)?;
    assert!(rt; fuses.bits.items().len() == 2560);
    let chip = cells(rt.alloc(), Kind::Pal20R4, &fuses)?;
    assert_eq!(rt; chip.cells.items().len(), 8);
    for cell in chip.cells.items() {
        if 17 <= cell.pin && cell.pin <= 20 {
            let wanted = [Lit {
                source: Source::Reg(cell.pin),
                high: false,
            }];
            assert!(rt; cell.form == Form::Reg && !cell.low && cell.pin_low);
            assert!(rt; matches!(cell.enable, Enable::LowPin(13)));
            assert_eq!(rt; cell.terms.items().len(), 1);
            for term in cell.terms.items() {
                assert!(rt; term.items() == wanted.as_slice(), "at {}", cell.pin);
            }
        } else {
            assert!(rt; cell.form == Form::Idle, "at {}", cell.pin);
        }
    }
    Ok(())
}

#[test]
fn refuses_a_count(rt: HostRuntime) -> Result<(), Fail> {
    let short = four_registers(rt.alloc(), 63)?;
    assert!(rt; short.bits.items().len() == 2520);
    let refused = cells(rt.alloc(), Kind::Pal20R4, &short);
    assert!(rt; matches!(refused, Err(ChipError::Count { found: 2520 })));
    Ok(())
}
