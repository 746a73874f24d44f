use super::*;
use mig_base::{Kind, Mode, Source};
use std::test::Fail;

/// Kind, mode, and the first column of a pair with its pin.
const PAIRS: [(Kind, Mode, usize, u8); 40] = [
    (Kind::Pal16L8, Mode::Fixed, 0, 2),
    (Kind::Pal16L8, Mode::Fixed, 2, 1),
    (Kind::Pal16L8, Mode::Fixed, 6, 18),
    (Kind::Pal16L8, Mode::Fixed, 26, 13),
    (Kind::Pal16L8, Mode::Fixed, 28, 9),
    (Kind::Pal16L8, Mode::Fixed, 30, 11),
    (Kind::Pal16R4, Mode::Fixed, 2, 19),
    (Kind::Pal16R6, Mode::Fixed, 6, 18),
    (Kind::Pal16R8, Mode::Fixed, 30, 12),
    (Kind::Pal20L8, Mode::Fixed, 2, 1),
    (Kind::Pal20L8, Mode::Fixed, 6, 23),
    (Kind::Pal20L8, Mode::Fixed, 10, 21),
    (Kind::Pal20R4, Mode::Fixed, 2, 23),
    (Kind::Pal20R6, Mode::Fixed, 14, 20),
    (Kind::Pal20R8, Mode::Fixed, 38, 14),
    (Kind::Gal16V8, Mode::Simple, 2, 1),
    (Kind::Gal16V8, Mode::Simple, 6, 19),
    (Kind::Gal16V8, Mode::Simple, 14, 17),
    (Kind::Gal16V8, Mode::Simple, 18, 14),
    (Kind::Gal16V8, Mode::Simple, 26, 12),
    (Kind::Gal16V8, Mode::Simple, 30, 11),
    (Kind::Gal16V8, Mode::Complex, 6, 18),
    (Kind::Gal16V8, Mode::Complex, 26, 13),
    (Kind::Gal16V8, Mode::Registered, 2, 19),
    (Kind::Gal16V8, Mode::Registered, 30, 12),
    (Kind::Gal20V8, Mode::Simple, 6, 23),
    (Kind::Gal20V8, Mode::Simple, 18, 20),
    (Kind::Gal20V8, Mode::Simple, 22, 17),
    (Kind::Gal20V8, Mode::Simple, 34, 14),
    (Kind::Gal20V8, Mode::Complex, 10, 21),
    (Kind::Gal20V8, Mode::Complex, 30, 16),
    (Kind::Gal20V8, Mode::Complex, 38, 13),
    (Kind::Gal20V8, Mode::Registered, 2, 23),
    (Kind::Gal20V8, Mode::Registered, 34, 15),
    (Kind::Gal20V8, Mode::Registered, 38, 14),
    (Kind::Gal22V10, Mode::Fixed, 0, 1),
    (Kind::Gal22V10, Mode::Fixed, 2, 23),
    (Kind::Gal22V10, Mode::Fixed, 38, 14),
    (Kind::Gal22V10, Mode::Fixed, 40, 11),
    (Kind::Gal22V10Q, Mode::Fixed, 42, 13),
];

#[test]
fn columns_read_pins(rt: HostRuntime) -> Result<(), Fail> {
    for (kind, mode, column, pin) in PAIRS {
        let read = columns(rt.alloc(), false, &[], pair_pins(kind, mode))?;
        for (at, literal) in read.iter().enumerate() {
            if at == column {
                assert!(rt;
                    literal.source == Source::Pin(pin) && literal.high,
                    "{kind:?} {at}"
                );
            } else if literal.source == Source::Pin(pin) {
                assert!(rt; at > column && !literal.high, "{kind:?} {at}");
            }
        }
    }
    Ok(())
}

#[test]
fn columns_read_registers(rt: HostRuntime) -> Result<(), Fail> {
    for (even_q, even) in [(false, false), (true, true)] {
        let read = columns(rt.alloc(), even_q, &[23], &[1, 23])?;
        assert_eq!(rt; read.len(), 4);
        assert!(rt; read[2].source == Source::Reg(23) && read[2].high == even);
        assert!(rt; read[3].source == Source::Reg(23) && read[3].high != even);
    }
    Ok(())
}
