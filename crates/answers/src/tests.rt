use super::*;
use mig_base::{
    BoardError, ChipError, FileName, Items, JedError, Kind, Level, Name, NetError, NetLine,
    NoMemory, Node, PinName, Port, Pull, ScriptError, Stem, file_name,
};
use std::alloc::Global;
use std::test::Fail;

/// A file of board b1: of a chip where one is named.
fn file(alloc: Global, chip: Option<&Name>, ending: &str) -> Result<FileName, NoMemory> {
    let stem = Stem::new(alloc, b"b1").ok().ok_or(NoMemory)?;
    file_name(alloc, &stem, chip, ending)
}

/// The fuse file of chip U1.
fn fuse_file(alloc: Global) -> Result<FileName, NoMemory> {
    let name = Name::new(b"U1").ok_or(NoMemory)?;
    file(alloc, Some(&name), "jed")
}

/// The report of a refusal.
fn told(alloc: Global, refusal: Refusal) -> Result<Vec<u8>, NoMemory> {
    let text = report(alloc, &Exit::Refused(refusal), &[])?;
    Ok(text)
}

#[test]
fn tells_refused_fuse_texts(rt: HostRuntime) -> Result<(), Fail> {
    let alloc = rt.alloc();
    for (error, wanted) in [
        (JedError::NoEtx, "refused jed b1.U1.jed NoEtx\n"),
        (
            JedError::BadFuseSum {
                said: 0x07D8,
                found: 0x07D7,
            },
            "refused jed b1.U1.jed BadFuseSum 07D8 07D7\n",
        ),
        (
            JedError::BadSum {
                said: 0x0121,
                found: 0x0120,
            },
            "refused jed b1.U1.jed BadSum 0121 0120\n",
        ),
        (
            JedError::CountOver { found: 8193 },
            "refused jed b1.U1.jed CountOver 8193\n",
        ),
    ] {
        let text = told(alloc, Refusal::Jed(fuse_file(alloc)?, error))?;
        assert_eq!(rt; text.as_slice(), wanted.as_bytes());
    }
    Ok(())
}

#[test]
fn tells_refused_chips(rt: HostRuntime) -> Result<(), Fail> {
    let alloc = rt.alloc();
    for (error, wanted) in [
        (
            ChipError::Count { found: 2047 },
            "refused chip b1.U1.jed Count 2047\n",
        ),
        (ChipError::ModeBits, "refused chip b1.U1.jed ModeBits\n"),
        (
            ChipError::Ac1InComplex { pin: 15 },
            "refused chip b1.U1.jed Ac1InComplex 15\n",
        ),
    ] {
        let text = told(alloc, Refusal::Chip(fuse_file(alloc)?, error))?;
        assert_eq!(rt; text.as_slice(), wanted.as_bytes());
    }
    Ok(())
}

#[test]
fn tells_refused_boards(rt: HostRuntime) -> Result<(), Fail> {
    let alloc = rt.alloc();
    for (error, wanted) in [
        (
            NetError::ChipsOver { n: 40 },
            "refused net b1.net ChipsOver 40\n",
        ),
        (NetError::NoEnd, "refused net b1.net NoEnd\n"),
    ] {
        let text = told(alloc, Refusal::Net(file(alloc, None, "net")?, error))?;
        assert_eq!(rt; text.as_slice(), wanted.as_bytes());
    }
    let long = told(alloc, Refusal::TooLong(file(alloc, None, "net")?))?;
    assert_eq!(rt; long.as_slice(), "refused toolong b1.net\n".as_bytes());
    Ok(())
}

/// The pin of chip U1 of this number.
fn pin_of_u1(pin: u8) -> Result<PinName, NoMemory> {
    let chip = Name::new(b"U1").ok_or(NoMemory)?;
    Ok(PinName { chip, pin })
}

#[test]
fn tells_boards_that_are_not_accepted(rt: HostRuntime) -> Result<(), Fail> {
    let alloc = rt.alloc();
    let mut cycle = Vec::new(alloc);
    cycle.push(Node::Private(pin_of_u1(17)?))?;
    cycle.push(Node::Reg(pin_of_u1(18)?))?;
    let cycle = Items::new(cycle);
    let text = told(
        alloc,
        Refusal::Board(file(alloc, None, "net")?, BoardError::Loop { cycle }),
    )?;
    assert_eq!(rt;
        text.as_slice(),
        "refused board b1.net Loop U1.17 U1.18:Q\n".as_bytes()
    );
    let net = Node::Gnd;
    let text = told(
        alloc,
        Refusal::Board(file(alloc, None, "net")?, BoardError::InDriven { net }),
    )?;
    assert_eq!(rt;
        text.as_slice(),
        "refused board b1.net InDriven GND\n".as_bytes()
    );
    Ok(())
}

/// A named net.
fn net_line(name: &[u8], port: Port) -> Result<NetLine, NoMemory> {
    let name = Name::new(name).ok_or(NoMemory)?;
    Ok(NetLine {
        name,
        port,
        pull: Pull::Free,
    })
}

#[test]
fn tells_refused_scripts(rt: HostRuntime) -> Result<(), Fail> {
    let alloc = rt.alloc();
    let nets = [net_line(b"A", Port::Input)?, net_line(b"B", Port::Input)?];
    for (error, wanted) in [
        (
            ScriptError::PortLeft { net: 3 },
            "refused script b1.sim PortLeft B\n",
        ),
        (
            ScriptError::StepsOver { n: 100_003 },
            "refused script b1.sim StepsOver 100003\n",
        ),
    ] {
        let refusal = Refusal::Script(file(alloc, None, "sim")?, error);
        let text = report(alloc, &Exit::Refused(refusal), &nets)?;
        assert_eq!(rt; text.as_slice(), wanted.as_bytes());
    }
    Ok(())
}

#[test]
fn tells_accepted_boards_and_runs(rt: HostRuntime) -> Result<(), Fail> {
    let alloc = rt.alloc();
    let text = accepted(
        alloc,
        Counted {
            chips: 3,
            nets: 7,
            units: 10,
            registers: 8,
            rank: 3,
        },
    )?;
    assert_eq!(rt;
        text.as_slice(),
        "accepted chips 3 nets 7 units 10 registers 8 rank 3\n".as_bytes()
    );
    let nets = [net_line(b"A", Port::Both)?, net_line(b"W", Port::Inner)?];
    let mut run = String::new(alloc);
    write_ports(&mut run, &nets)?;
    write_show(&mut run, &[Level::Z])?;
    write_show(&mut run, &[])?;
    assert_eq!(rt; run.as_str(), "ports A\nshow Z\nshow\n");
    Ok(())
}

#[test]
fn reads_checks_and_runs(rt: HostRuntime) -> Result<(), Fail> {
    let alloc = rt.alloc();
    let Ok(Command::Check(board)) = read_words(alloc, &["check", "a/b1"]) else {
        return Err(Fail::from(NoMemory));
    };
    assert_eq!(rt; board.text(), "a/b1");
    let Ok(Command::Sim(sim)) = read_words(alloc, &["sim", "b1", "s1"]) else {
        return Err(Fail::from(NoMemory));
    };
    assert_eq!(rt; sim.board.text(), "b1");
    assert_eq!(rt; sim.script.text(), "s1");
    Ok(())
}

#[test]
fn reads_listings(rt: HostRuntime) -> Result<(), Fail> {
    let alloc = rt.alloc();
    let read = read_words(alloc, &["list", "a/b1.U1", "GAL22V10Q"]);
    let Ok(Command::List(listing)) = read else {
        return Err(Fail::from(NoMemory));
    };
    assert_eq!(rt; listing.stem.text(), "a/b1");
    assert!(rt; listing.chip == Name::new(b"U1"));
    assert!(rt; listing.kind == Kind::Gal22V10Q);
    Ok(())
}

#[test]
fn refuses_other_words(rt: HostRuntime) -> Result<(), Fail> {
    let alloc = rt.alloc();
    for words in [
        ["list", "b1.U1.jed", "PAL16L8"],
        ["list", "b1.", "PAL16L8"],
        ["list", ".U1", "PAL16L8"],
        ["list", "b1.a/b", "PAL16L8"],
        ["list", "b1.U1", "pal16l8"],
        ["list", "b1.U1", "PAL16L8 "],
        ["List", "b1.U1", "PAL16L8"],
    ] {
        let read = read_words(alloc, &words);
        assert!(rt; matches!(read, Err(Exit::Usage)), "{}", words[1]);
    }
    Ok(())
}
