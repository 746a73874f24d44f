ghost use Rattle.std.specs.Prelude.{◌≡◌, IfOk};
ghost use Rattle.mig_base.specs.declared.nets.Pull.TheVariants.{Free as NoPull};
ghost use Rattle.mig_base.specs.WrittenBoard.{IsWritable};

use crate::reading::script_for;
use crate::writing::text_of;
use crate::{Script, ScriptError};
use mig_base::{Items, Level, Name, Net, NetLine, NoMemory, Port, Pull};
use std::alloc::Global;
use std::test::Fail;

fn net_line(name: &str, port: Port) -> Result<NetLine, NoMemory>
    ensures name { IfOk result (λ line. line.name ≡ name.now) }
    ensures port { IfOk result (λ line. line.port ≡ port) }
    ensures pull { IfOk result (λ line. line.pull ≡ NoPull) }
{
    let Some(name) = Name::new(name.as_bytes()) else {
        return Err(NoMemory);
    };
    Ok(NetLine {
        name,
        port,
        pull: Pull::Free,
    })
}

/// Two Input ports, a Both port and two nets that are handed no level.
fn board(alloc: Global) -> Result<Net, NoMemory>
    ensures { IfOk result (λ net. IsWritable net) }
{
    let y = net_line("Y", Port::Output)?;
    let a = net_line("A", Port::Input)?;
    let w = net_line("W", Port::Inner)?;
    let b = net_line("B", Port::Input)?;
    let c = net_line("C", Port::Both)?;
    Ok(Net {
        nets: Items::new(vec![in alloc; y, a, w, b, c]?),
        chips: Items::new(Vec::new(alloc)),
        pins: Items::new(Vec::new(alloc)),
    })
}

/// A net that shows its level and is handed none.
fn board_without_inputs(alloc: Global) -> Result<Net, NoMemory>
    ensures { IfOk result (λ net. IsWritable net) }
{
    let y = net_line("Y", Port::Output)?;
    Ok(Net {
        nets: Items::new(vec![in alloc; y]?),
        chips: Items::new(Vec::new(alloc)),
        pins: Items::new(Vec::new(alloc)),
    })
}

/// One Input port.
fn board_of_one(alloc: Global) -> Result<Net, NoMemory> {
    let a = net_line("A", Port::Input)?;
    Ok(Net {
        nets: Items::new(vec![in alloc; a]?),
        chips: Items::new(Vec::new(alloc)),
        pins: Items::new(Vec::new(alloc)),
    })
}

/// The script of a text of this size.
fn read(alloc: Global, net: &Net, text: &str) -> Result<Script, ScriptError> {
    if text.len() > 4_194_304 {
        return Err(ScriptError::Memory);
    }
    script_for(alloc, text.as_bytes(), net)
}

/// The text that is written for the script of a text of this size.
fn written_again(alloc: Global, net: &Net, text: &str) -> Result<Vec<u8>, ScriptError>
    requires { IsWritable net.now }
{
    if text.len() > 4_194_304 {
        return Err(ScriptError::Memory);
    }
    let script = script_for(alloc, text.as_bytes(), net)?;
    match text_of(alloc, net, &script) {
        Ok(bytes) => Ok(bytes),
        Err(_) => Err(ScriptError::Memory),
    }
}

fn refusal(alloc: Global, net: &Net, text: &str) -> Option<ScriptError> {
    match read(alloc, net, text) {
        Ok(_) => None,
        Err(error) => Some(error),
    }
}

#[test]
fn the_levels_stand_in_board_order(rt: HostRuntime) -> Result<(), Fail> {
    let net = board(rt.alloc())?;
    let text = "# a run\nscript 1\r\n\tports  C A B\n\nstep z01\nstep 110\nend";
    let script = read(rt.alloc(), &net, text)?;
    let steps = script.steps.items();
    assert_eq!(rt; steps.len(), 2);
    assert!(rt; steps[0].levels.items() == [Level::Zero, Level::One, Level::Z].as_slice());
    assert!(rt; steps[1].levels.items() == [Level::One, Level::Zero, Level::One].as_slice());
    Ok(())
}

#[test]
fn a_script_is_written_in_board_order(rt: HostRuntime) -> Result<(), Fail> {
    let net = board(rt.alloc())?;
    let text = "# a run\nscript 1\r\n\tports  C A B\n\nstep z01\nstep 110\nend";
    let bytes = written_again(rt.alloc(), &net, text)?;
    assert!(rt; bytes.as_slice() == b"script 1\nports A B C\nstep 01Z\nstep 101\nend\n".as_slice());
    Ok(())
}

#[test]
fn a_script_without_ports_or_steps_is_written(rt: HostRuntime) -> Result<(), Fail> {
    let net = board_without_inputs(rt.alloc())?;
    let stepped = "script 1\nports\nstep\nstep\nend\n";
    let bytes = written_again(rt.alloc(), &net, stepped)?;
    assert!(rt; bytes.as_slice() == stepped.as_bytes());
    let board = board(rt.alloc())?;
    let empty = "script 1\nports A B C\nend\n";
    let bytes = written_again(rt.alloc(), &board, empty)?;
    assert!(rt; bytes.as_slice() == empty.as_bytes());
    Ok(())
}

#[test]
fn the_first_wrong_line_is_refused(rt: HostRuntime) -> Result<(), Fail> {
    let net = board(rt.alloc())?;
    let cases = [
        ("", ScriptError::NoEnd),
        ("script 1", ScriptError::NoEnd),
        ("script 1\nports A B C\nstep 000\n", ScriptError::NoEnd),
        ("script 2\n", ScriptError::Line { n: 1 }),
        ("\nports A B C\n", ScriptError::Line { n: 2 }),
        ("script 1\nend\n", ScriptError::Line { n: 2 }),
        ("script 1\nports A B b@d\n", ScriptError::Line { n: 2 }),
        (
            "script 1\nports A B C\nports A B C\nend\n",
            ScriptError::Line { n: 3 },
        ),
        ("script 1\nports A A Q\n", ScriptError::PortTwice { n: 2 }),
        ("script 1\nports A Y\n", ScriptError::PortUnknown { n: 2 }),
        ("script 1\nports A W\n", ScriptError::PortUnknown { n: 2 }),
        ("script 1\nports A C\n", ScriptError::PortLeft { net: 5 }),
        ("script 1\nports C\n", ScriptError::PortLeft { net: 3 }),
        (
            "script 1\nports A B C\nstep Z00\n",
            ScriptError::LevelBad { n: 3 },
        ),
        (
            "script 1\nports C B A\nstep 0X0\n",
            ScriptError::LevelBad { n: 3 },
        ),
        (
            "script 1\nports A B C\nstep 00\n",
            ScriptError::Line { n: 3 },
        ),
        ("script 1\nports A B C\nstep\n", ScriptError::Line { n: 3 }),
        (
            "script 1\nports A B C\nstep XXXX\n",
            ScriptError::Line { n: 3 },
        ),
        (
            "script 1\nports A B C\nend\nstep 000\n",
            ScriptError::Line { n: 4 },
        ),
        ("script 1\nports A B C\nend\r", ScriptError::Line { n: 3 }),
    ];
    for (text, error) in cases {
        assert_eq!(rt; refusal(rt.alloc(), &net, text), Some(error));
    }
    Ok(())
}

#[test]
fn a_board_without_ports_has_words_alone(rt: HostRuntime) -> Result<(), Fail> {
    let net = board_without_inputs(rt.alloc())?;
    let script = read(rt.alloc(), &net, "script 1\nports\nstep\nstep\nend\n")?;
    assert_eq!(rt; script.steps.items().len(), 2);
    assert_eq!(rt; script.steps.items()[0].levels.items().len(), 0);
    assert_eq!(rt;
        refusal(rt.alloc(), &net, "script 1\nports\nstep 0\nend\n"),
        Some(ScriptError::Line { n: 3 })
    );
    assert_eq!(rt;
        refusal(rt.alloc(), &net, "script 1\nend\n"),
        Some(ScriptError::Line { n: 2 })
    );
    Ok(())
}

#[test]
fn a_script_may_have_no_step(rt: HostRuntime) -> Result<(), Fail> {
    let net = board(rt.alloc())?;
    let script = read(rt.alloc(), &net, "script 1\nports A B C\nend\n")?;
    assert_eq!(rt; script.steps.items().len(), 0);
    Ok(())
}

#[test]
fn a_hundred_thousand_steps_are_read(rt: HostRuntime) -> Result<(), Fail> {
    let net = board_of_one(rt.alloc())?;
    let mut text = String::from_str(rt.alloc(), "script 1\nports A\n")?;
    for _ in 0..100_000u32 {
        text.push_str("step 1\n")?;
    }
    let mut more = text.clone()?;
    text.push_str("end\n")?;
    assert_eq!(rt;
        read(rt.alloc(), &net, text.as_str())?.steps.items().len(),
        100_000
    );
    more.push_str("step 1\nend\n")?;
    assert_eq!(rt;
        refusal(rt.alloc(), &net, more.as_str()),
        Some(ScriptError::StepsOver { n: 100_003 })
    );
    Ok(())
}
