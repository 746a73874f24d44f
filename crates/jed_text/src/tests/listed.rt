use crate::fields;
use std::test::Fail;

/// A text with test vectors and with fields of blanks alone.
const TEXT: &[u8] =
    b"\x02design QF9*QF0* \r\nV0001 0X1\r\n 1N *\r\n\0**N a note*G0*V0002 C0L*\n\x030000";

/// Its fields: the place and the text of each.
const LISTED: [(usize, &[u8]); 5] = [
    (12, b"QF0"),
    (19, b"V0001 0X1\r\n 1N "),
    (40, b"N a note"),
    (49, b"G0"),
    (52, b"V0002 C0L"),
];

#[test]
fn lists_fields(rt: HostRuntime) -> Result<(), Fail> {
    let found = fields(rt.alloc(), TEXT)?;
    assert_eq!(rt; found.len(), LISTED.len());
    for (field, (at, text)) in found.iter().zip(LISTED.iter()) {
        assert_eq!(rt; field.at, *at);
        assert_eq!(rt; field.text.items(), *text);
    }
    Ok(())
}

#[test]
fn lists_no_fields(rt: HostRuntime) -> Result<(), Fail> {
    for text in [b"*QF0*\x03".as_slice(), b"\x02*QF0*", b"\x02*\x03"] {
        assert_eq!(rt; fields(rt.alloc(), text)?.len(), 0);
    }
    Ok(())
}
