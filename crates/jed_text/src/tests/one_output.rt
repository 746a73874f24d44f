use super::refusal;
use crate::read_jed;
use mig_base::JedError;
use std::alloc::{AllocError, Global};
use std::test::Fail;

/// The fuses of a PAL16L8 whose pin 19 is the inverted product of pin 2 and NOT pin 3.
const WHOLE: &[u8] =
    b"\x02*QF2048*F0*L0000 11111111111111111111111111111111*L0032 01111011111111111111111111111111*C07D7*\x030000\n";

/// The same with this number of fuses and this fuse sum.
fn with_sum(alloc: Global, count: &[u8], sum: &[u8]) -> Result<Vec<u8>, AllocError> {
    let mut text = Vec::from_slice(alloc, b"\x02*")?;
    text.extend_from_slice(count)?;
    text.extend_from_slice(b"*F0*L0000 11111111111111111111111111111111")?;
    text.extend_from_slice(b"*L0032 01111011111111111111111111111111*")?;
    text.extend_from_slice(sum)?;
    text.extend_from_slice(b"*\x030000\n")?;
    Ok(text)
}

/// The same fuses as an assembler writes them.
const ASSEMBLED: &[u8] =
    b"\x02JEDEC file\r\nfor U1*\r\nQP20*\r\nQF2048*\r\nQV1*\r\nG0*\r\nF0 *\r\nNote: one output*\r\nL0000\r\n11111111111111111111111111111111\r\n01111011111111111111111111111111 *\r\nC07D7*\r\nV0001 0XXXXXXXXNXXXXXXXXHN*\r\n\x032886\r\n";

#[test]
fn reads_one_output(rt: HostRuntime) -> Result<(), Fail> {
    for text in [WHOLE, ASSEMBLED] {
        let fuses = read_jed(rt.alloc(), text).map_err(|_| "refused")?;
        let bits = fuses.bits.items();
        assert_eq!(rt; bits.len(), 2048);
        assert_eq!(rt; bits.iter().filter(|bit| **bit).count(), 62);
        assert!(rt; !bits[32] && bits[33] && !bits[37]);
    }
    Ok(())
}

#[test]
fn judges_fuse_sums(rt: HostRuntime) -> Result<(), Fail> {
    for sum in [b"C07d7", b"c07d7", b"c07d8", b"C07D7"] {
        let text = with_sum(rt.alloc(), b"QF2048", sum)?;
        assert_eq!(rt; refusal(rt.alloc(), text.as_slice()), None);
    }
    let text = with_sum(rt.alloc(), b"QF2048", b"C07D8")?;
    let wanted = JedError::BadFuseSum {
        said: 0x7d8,
        found: 0x7d7,
    };
    assert_eq!(rt; refusal(rt.alloc(), text.as_slice()), Some(wanted));
    Ok(())
}

#[test]
fn judges_numbers_of_fuses(rt: HostRuntime) -> Result<(), Fail> {
    let fewer = with_sum(rt.alloc(), b"QF2047", b"C07D7")?;
    let fuses = read_jed(rt.alloc(), fewer.as_slice()).map_err(|_| "refused")?;
    assert_eq!(rt; fuses.bits.items().len(), 2047);
    let most = with_sum(rt.alloc(), b"QF8192", b"C07D7")?;
    assert_eq!(rt; refusal(rt.alloc(), most.as_slice()), None);
    let over = with_sum(rt.alloc(), b"QF8193", b"C07D7")?;
    let wanted = JedError::CountOver { found: 8193 };
    assert_eq!(rt; refusal(rt.alloc(), over.as_slice()), Some(wanted));
    Ok(())
}

/// The place of ETX in the whole text.
const ETX_AT: usize = 96;

/// Why the first so many bytes of the whole text are refused.
fn wanted_of(length: usize) -> Option<JedError> {
    if length == 0 {
        Some(JedError::NoStx)
    } else if length <= ETX_AT {
        Some(JedError::NoEtx)
    } else if length > ETX_AT + 1 && length < ETX_AT + 5 {
        Some(JedError::BadTail)
    } else {
        None
    }
}

#[test]
fn judges_each_cut(rt: HostRuntime) {
    assert_eq!(rt; WHOLE.len(), ETX_AT + 6);
    for (length, _) in WHOLE.iter().enumerate() {
        let cut = &WHOLE[..length];
        assert_eq!(rt; refusal(rt.alloc(), cut), wanted_of(length), "at {length}");
    }
    assert_eq!(rt; refusal(rt.alloc(), WHOLE), None);
}
