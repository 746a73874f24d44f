use super::refusal;
use mig_base::JedError;

/// Texts without start, without end, or with a wrong sum behind it: at once, behind other bytes, and at the last byte.
const ENDS: [(&[u8], JedError); 13] = [
    (b"", JedError::NoStx),
    (b"*QF0*\x030000", JedError::NoStx),
    (b"a text of some length, and no start", JedError::NoStx),
    (b"\x02", JedError::NoEtx),
    (b"\x03\x02*QF0*", JedError::NoEtx),
    (b"\x02*QF0*F0*L0 1*", JedError::NoEtx),
    (b"\x02*QF0*\x03x", JedError::BadTail),
    (b"\x02*QF0*\x03\r\n 01G0", JedError::BadTail),
    (b"\x02*QF0*\x03012", JedError::BadTail),
    (b"\x02*QF0*\x03\n012\n", JedError::BadTail),
    (
        b"\x02*QF0*\x030121",
        JedError::BadSum {
            said: 0x121,
            found: 0x120,
        },
    ),
    (
        b"\x02*QF0*\x03\r\n\r\n1020 and more",
        JedError::BadSum {
            said: 0x1020,
            found: 0x120,
        },
    ),
    (
        b"\x02*QF0*\x03ffFF",
        JedError::BadSum {
            said: 0xffff,
            found: 0x120,
        },
    ),
];

/// Texts with a field of a wrong form, or with something loose: the first field, one between others, and the last.
const FORMS: [(&[u8], JedError); 19] = [
    (b"\x02\x03", JedError::BadField { at: 1 }),
    (b"\x02QF0\x03", JedError::BadField { at: 1 }),
    (b"ab\x02 x\x03", JedError::BadField { at: 3 }),
    (b"\x02*x\x03", JedError::BadField { at: 2 }),
    (b"\x02*QF0*\r\nx\x03", JedError::BadField { at: 8 }),
    (b"\x02*QF0* \x02\x03", JedError::BadField { at: 7 }),
    (b"\x02*QF*QF0*\x03", JedError::BadField { at: 2 }),
    (b"\x02*G0* QF8 0*F0*\x03", JedError::BadField { at: 6 }),
    (b"\x02*F0*QF0000000000*\x03", JedError::BadField { at: 5 }),
    (b"\x02* F*QF0*\x03", JedError::BadField { at: 3 }),
    (b"\x02*QF0*F2*G0*\x03", JedError::BadField { at: 6 }),
    (b"\x02*QF0*G0*F00*\x03", JedError::BadField { at: 9 }),
    (b"\x02*L*QF0*\x03", JedError::BadField { at: 2 }),
    (b"\x02*QF1*\nL00*F0*L0x*\x03", JedError::BadField { at: 14 }),
    (
        b"\x02*QF1*L0 0*L0 1 2*F0*\x03",
        JedError::BadField { at: 11 },
    ),
    (
        b"\x02*QF1*F0*L0000000000 1*\x03",
        JedError::BadField { at: 9 },
    ),
    (b"\x02*C*QF0*\x03", JedError::BadField { at: 2 }),
    (b"\x02*QF0*C 00000*G0*\x03", JedError::BadField { at: 6 }),
    (b"\x02*QF0*G0*C0x*\x03", JedError::BadField { at: 9 }),
];

/// Texts with a field that cannot stand where it stands, and texts without a number of fuses.
const FIELDS: [(&[u8], JedError); 15] = [
    (b"\x02*K*QF0*\x03", JedError::FieldK { at: 2 }),
    (b"\x02*QF0*\r\n KEY*F0*\x03", JedError::FieldK { at: 9 }),
    (b"\x02*QF0*F0*K\x02*\x03", JedError::FieldK { at: 9 }),
    (b"\x02*QF0*QF0*F0*\x03", JedError::CountTwice { at: 6 }),
    (b"\x02*QF0*F0* QF0*G0*\x03", JedError::CountTwice { at: 10 }),
    (b"\x02*QF0*F0*QF8193*\x03", JedError::CountTwice { at: 9 }),
    (b"\x02*QF8193*F0*\x03", JedError::CountOver { found: 8193 }),
    (
        b"\x02*F0*QF 000009000 *G0*\x03",
        JedError::CountOver { found: 9000 },
    ),
    (
        b"\x02*F0*G0*QF999999999*\x03",
        JedError::CountOver { found: 999999999 },
    ),
    (b"\x02*F0*F0*QF0*\x03", JedError::DefaultTwice { at: 5 }),
    (b"\x02*F0*QF0*F 1*G0*\x03", JedError::DefaultTwice { at: 9 }),
    (b"\x02*QF0*F1*G0*F1*\x03", JedError::DefaultTwice { at: 12 }),
    (b"\x02*\x03", JedError::NoCount),
    (b"\x02*G0*QP20*F0*\x03", JedError::NoCount),
    (b"\x02*Q F8*qf8*L0 1*C0*\x03", JedError::NoCount),
];

/// Texts whose listings or fuse sums are wrong: at the first fuse or field, at one between others, and at the last.
const FUSES: [(&[u8], JedError); 14] = [
    (b"\x02*L0 0001*QF3*F0*\x03", JedError::Address { at: 2 }),
    (b"\x02*QF3*L0 1*\n L4*L9*\x03", JedError::Address { at: 13 }),
    (
        b"\x02*QF3*F0*L3*L2 1*L2 11*\x03",
        JedError::Address { at: 17 },
    ),
    (
        b"\x02*QF8192*F0*L999999999*\x03",
        JedError::Address { at: 12 },
    ),
    (
        b"\x02*QF3*L0 0*L0 111*\x03",
        JedError::FuseTwice { fuse: 0 },
    ),
    (
        b"\x02*QF3*F0*L2 1*L2 0*L1 1*L1 0*\x03",
        JedError::FuseTwice { fuse: 1 },
    ),
    (
        b"\x02*QF3*L0 000*L2 1*\x03",
        JedError::FuseTwice { fuse: 2 },
    ),
    (b"\x02*QF3*L1 11*\x03", JedError::FuseUnset { fuse: 0 }),
    (b"\x02*QF3*L2 1*L0 0*\x03", JedError::FuseUnset { fuse: 1 }),
    (b"\x02*QF3*L0 01*\x03", JedError::FuseUnset { fuse: 2 }),
    (
        b"\x02*QF8192*L1 1*L0 0*\x03",
        JedError::FuseUnset { fuse: 2 },
    ),
    (
        b"\x02*QF3*F1*C0*C7*C7*\x03",
        JedError::BadFuseSum {
            said: 0x0,
            found: 0x7,
        },
    ),
    (
        b"\x02*C5*QF3*C6*L0 101*C5*\x03",
        JedError::BadFuseSum {
            said: 0x6,
            found: 0x5,
        },
    ),
    (
        b"\x02*QF9*F1*C100*C0100*CFF*\x03",
        JedError::BadFuseSum {
            said: 0xff,
            found: 0x100,
        },
    ),
];

/// Texts with two refusals, of which the first is answered.
const ORDER: [(&[u8], JedError); 15] = [
    (b"\x02*QF0*\x03 12", JedError::BadTail),
    (
        b"\x02K\x030001",
        JedError::BadSum {
            said: 0x1,
            found: 0x50,
        },
    ),
    (
        b"\x02*K*QF*\x030001",
        JedError::BadSum {
            said: 0x1,
            found: 0x165,
        },
    ),
    (b"\x02*QF0*K*QF*\x03", JedError::FieldK { at: 6 }),
    (b"\x02*QF0*QF*K*\x03", JedError::BadField { at: 6 }),
    (b"\x02*QF0*QF8193*\x03", JedError::CountTwice { at: 6 }),
    (b"\x02*QF8193*QF0*\x03", JedError::CountOver { found: 8193 }),
    (b"\x02*QF0*F0*F2*\x03", JedError::BadField { at: 9 }),
    (b"\x02*QF0*K* x\x03", JedError::FieldK { at: 6 }),
    (b"\x02*G0*x\x03", JedError::BadField { at: 5 }),
    (b"\x02*L9 1*F0*\x03", JedError::NoCount),
    (
        b"\x02*QF2*L0 1*L0 0*L2 1*\x03",
        JedError::Address { at: 16 },
    ),
    (b"\x02*QF2*L1 1*L1 0*\x03", JedError::FuseTwice { fuse: 1 }),
    (b"\x02*QF2*L0 1*C9*\x03", JedError::FuseUnset { fuse: 1 }),
    (
        b"\x02*QF1*F0*L0 1*L0 0*C9*\x03",
        JedError::FuseTwice { fuse: 0 },
    ),
];

#[test]
fn judges_ends(rt: HostRuntime) {
    for (text, wanted) in ENDS {
        assert_eq!(rt; refusal(rt.alloc(), text), Some(wanted), "at {text:?}");
    }
}

#[test]
fn judges_forms(rt: HostRuntime) {
    for (text, wanted) in FORMS {
        assert_eq!(rt; refusal(rt.alloc(), text), Some(wanted), "at {text:?}");
    }
}

#[test]
fn judges_places(rt: HostRuntime) {
    for (text, wanted) in FIELDS {
        assert_eq!(rt; refusal(rt.alloc(), text), Some(wanted), "at {text:?}");
    }
}

#[test]
fn judges_fuses(rt: HostRuntime) {
    for (text, wanted) in FUSES {
        assert_eq!(rt; refusal(rt.alloc(), text), Some(wanted), "at {text:?}");
    }
}

#[test]
fn answers_the_first(rt: HostRuntime) {
    for (text, wanted) in ORDER {
        assert_eq!(rt; refusal(rt.alloc(), text), Some(wanted), "at {text:?}");
    }
}
