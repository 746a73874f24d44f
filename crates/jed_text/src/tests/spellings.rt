use crate::read_jed;
use std::test::Fail;

/// Spellings of three fuses, of which the first is intact and the others are blown.
const SPELLED: [&[u8]; 14] = [
    b"\x02*QF3*L0 011*\x03",
    b"\x02*QF3*L0 011*\x030000",
    b"text, \x03 and more\r\n\x02*QF3*L0 011*\x030000\r\nand behind \x02*\x03",
    b"\x02JEDEC \x02 file\r\nfor U1*\r\nQP20*\r\nQV1*\r\nQF3*\r\nG0*\r\nF0*\r\nL0\r\n0\r\n11\r\n*\r\nC6*\r\n\x03",
    b"\x02*D0*N K QF*V0001 NX1*X1*QP*QV0*QF3*P1*L0 011*Q*A*\x03",
    b"\x02*k*qf9*l0 1*f1*c0*QF3*L0 011*\x03",
    b"\x02*QF 000000003 *F\t0\0*L 000000001 \x1f1\x0b1 * *\0*\x03",
    b"\x02*L1 11*F0*QF3*\x03",
    b"\x02*QF3*L0 0*L1*L1 \r\n*L1 1*L2 1*L0 011*L3*\x03",
    b"\x02*F1*L0 0*QF3*C6*\x03",
    b"\x02*QF3*L0 011*C6*C06*C 006 *C0006*\x03",
    b"\x02*QF3*L0 011*\x03027B",
    b"\x02*QF3*L0 011*\x03\n 027b.",
    b"x\x02*QF3*L0 011*\x030000 02F9",
];

#[test]
fn takes_each_spelling(rt: HostRuntime) -> Result<(), Fail> {
    for text in SPELLED {
        let fuses = read_jed(rt.alloc(), text).map_err(|_| "refused")?;
        assert_eq!(rt;
            fuses.bits.items(),
            [false, true, true].as_slice(),
            "at {text:?}"
        );
    }
    Ok(())
}

/// Sums of four blown fuses, and of the text, with digits of either case.
const SUMMED: [&[u8]; 3] = [
    b"\x02*QF4*F1*Cf*CF*C0f*C00F*C000f*\x03",
    b"\x02*QF4*F1*Cf*CF*C0f*C00F*C000f*\x0306C4",
    b"\x02*QF4*F1*Cf*CF*C0f*C00F*C000f*\x03\r06c4",
];

#[test]
fn takes_digits_of_either_case(rt: HostRuntime) -> Result<(), Fail> {
    for text in SUMMED {
        let fuses = read_jed(rt.alloc(), text).map_err(|_| "refused")?;
        assert_eq!(rt; fuses.bits.items(), [true; 4].as_slice(), "at {text:?}");
    }
    Ok(())
}

/// Texts without fuses.
const EMPTY: [&[u8]; 3] = [b"\x02*QF0*\x030120", b"\x02*QF0*\x030000", b"\x02*QF0*\x03"];

#[test]
fn takes_no_fuses(rt: HostRuntime) -> Result<(), Fail> {
    for text in EMPTY {
        let fuses = read_jed(rt.alloc(), text).map_err(|_| "refused")?;
        assert_eq!(rt; fuses.bits.items().len(), 0, "at {text:?}");
    }
    Ok(())
}

#[test]
fn takes_all_fuses_that_may_be(rt: HostRuntime) -> Result<(), Fail> {
    let fuses = read_jed(rt.alloc(), b"\x02*QF8192*F0*L8191 1*\x03").map_err(|_| "refused")?;
    let bits = fuses.bits.items();
    assert_eq!(rt; bits.len(), 8192);
    assert!(rt; bits[8191] && !bits[8190]);
    Ok(())
}
