use crate::{read_net, write_net};
use mig_base::{Net, NetError, PinLine};
use std::alloc::Global;
use std::test::Fail;

/// A chip with two inputs and an output.
const BOARD: &str =
    "board 1\nnet A in\nnet B in\nnet Y out\nchip U1 PAL16L8\npin U1 2 A\npin U1 3 B\npin U1 19 Y\nend\n";

/// A board with a pulled net, up to its ninth line.
const PULLED: &str =
    "board 2\nnet S in\nnet D in\nnet Y out\nnet W\npull W down\nchip U1 PAL16L8\npin U1 2 S\n";

/// Why the text of this size is refused.
fn refusal_of(alloc: Global, text: &str) -> Option<NetError> {
    if text.len() > 1_048_576 {
        return None;
    }
    match read_net(alloc, text.as_bytes()) {
        Ok(_) => None,
        Err(error) => Some(error),
    }
}

/// The bytes that are written for what a text gives.
fn written_again(alloc: Global, bytes: &[u8]) -> Result<Vec<u8>, NetError> {
    if bytes.len() > 1_048_576 {
        return Err(NetError::NoEnd);
    }
    let net = read_net(alloc, bytes)?;
    match write_net(alloc, &net) {
        Ok(text) => Ok(text),
        Err(_) => Err(NetError::Memory),
    }
}

fn wiring_of(alloc: Global, bytes: &[u8]) -> Result<Net, NetError> {
    if bytes.len() > 1_048_576 {
        return Err(NetError::NoEnd);
    }
    read_net(alloc, bytes)
}

#[test]
fn a_text_is_read(rt: HostRuntime) -> Result<(), Fail> {
    let net = wiring_of(rt.alloc(), BOARD.as_bytes())?;
    assert_eq!(rt; net.nets.items().len(), 3);
    assert_eq!(rt; net.chips.items().len(), 1);
    let pins = [
        PinLine {
            chip: 0,
            pin: 2,
            net: 2,
        },
        PinLine {
            chip: 0,
            pin: 3,
            net: 3,
        },
        PinLine {
            chip: 0,
            pin: 19,
            net: 4,
        },
    ];
    assert!(rt; net.pins.items() == pins.as_slice());
    Ok(())
}

#[test]
fn a_text_is_written_again(rt: HostRuntime) -> Result<(), Fail> {
    let text = written_again(rt.alloc(), BOARD.as_bytes())?;
    assert!(rt; text.as_slice() == BOARD.as_bytes());
    Ok(())
}

#[test]
fn a_comment_is_read_over(rt: HostRuntime) -> Result<(), Fail> {
    let net = wiring_of(rt.alloc(), b"board 1\r\n# none\r\nnet\tA in\nend")?;
    assert_eq!(rt; net.nets.items().len(), 1);
    Ok(())
}

#[test]
fn the_first_wrong_line_is_refused(rt: HostRuntime) {
    let cases = [
        ("net A\n", NetError::Line { n: 1 }),
        ("board 1\nnet A in x\nend\n", NetError::Line { n: 2 }),
        ("board 1\nend\nnet A\n", NetError::Line { n: 3 }),
        ("board 1\nend\r", NetError::Line { n: 2 }),
        (
            "board 1\nnet A\n# note\n\tnet  A\nend\n",
            NetError::NameTwice { n: 4 },
        ),
        ("board 1\nnet GND\nend\n", NetError::NameTwice { n: 2 }),
        (
            "board 1\nchip U1 PAL16X8\nend\n",
            NetError::KindUnknown { n: 2 },
        ),
        (
            "board 1\nnet A\npin U1 2 A\nend\n",
            NetError::ChipUnknown { n: 3 },
        ),
        (
            "board 1\nchip U1 PAL16L8\npin U1 21 A\nend\n",
            NetError::PinUnknown { n: 3 },
        ),
        (
            "board 1\nchip U1 PAL16L8\npin U1 2 A\nend\n",
            NetError::NetUnknown { n: 3 },
        ),
        (
            "board 1\nchip U1 PAL16L8\npin U1 20 VCC\npin U1 20 VCC\nend\n",
            NetError::PinTwice { n: 4 },
        ),
        (
            "board 1\nchip U1 PAL16L8\npin U1 10 VCC\nend\n",
            NetError::PowerPin { n: 3 },
        ),
        ("board 1\nnet A\npull A up\nend\n", NetError::Line { n: 3 }),
        ("board 1\nnet A\n", NetError::NoEnd),
    ];
    for (text, error) in cases {
        assert_eq!(rt; refusal_of(rt.alloc(), text), Some(error));
    }
}

#[test]
fn a_crlf_text_is_read(rt: HostRuntime) {
    assert_eq!(rt;
        refusal_of(rt.alloc(), "board 2\r\nnet A\r\npull A up\r\nend\r\n"),
        None
    );
}

#[test]
fn pulls_are_refused(rt: HostRuntime) -> Result<(), Fail> {
    let mut twice = String::from_str(rt.alloc(), PULLED)?;
    twice.push_str("pull W up\nend\n")?;
    assert_eq!(rt;
        refusal_of(rt.alloc(), twice.as_str()),
        Some(NetError::PullTwice { n: 9 })
    );
    let mut input = String::from_str(rt.alloc(), PULLED)?;
    input.push_str("pull S up\nend\n")?;
    assert_eq!(rt;
        refusal_of(rt.alloc(), input.as_str()),
        Some(NetError::PullNet { n: 9 })
    );
    Ok(())
}

#[test]
fn too_many_chips_are_refused(rt: HostRuntime) -> Result<(), Fail> {
    let mut text = String::from_str(
        rt.alloc(),
        "board 1\nnet A\nnet B\nnet C\nnet D\nnet E\nnet F\n",
    )?;
    for i in 0..65u32 {
        let line = format!(in rt.alloc(); "chip U{i} PAL16L8\n")?;
        text.push_str(line.as_str())?;
    }
    assert_eq!(rt;
        refusal_of(rt.alloc(), text.as_str()),
        Some(NetError::ChipsOver { n: 72 })
    );
    Ok(())
}

#[test]
fn too_many_nets_are_refused(rt: HostRuntime) -> Result<(), Fail> {
    let mut text = String::from_str(rt.alloc(), "board 1\n")?;
    for i in 0..1025u32 {
        let line = format!(in rt.alloc(); "net N{i}\n")?;
        text.push_str(line.as_str())?;
    }
    assert_eq!(rt;
        refusal_of(rt.alloc(), text.as_str()),
        Some(NetError::NetsOver { n: 1026 })
    );
    Ok(())
}
