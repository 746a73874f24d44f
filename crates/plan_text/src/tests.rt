//! The texts of plans, and what they say.

use crate::{read_plan, write_plan};
use mig_base::{Items, Kind, Mode, Name, NoMemory, PinName, Plan, PlanChip, PlanError, PlanLine};
use std::alloc::Global;
use std::test::Fail;

/// A plan of two chips, a placed unit and an absorbed one.
const PLAN: &str =
    "plan 1\nchip N1 GAL22V10\nchip N2 GAL16V8 complex\nplace U1.19 N2.12\nabsorb U1.18\nend\n";

/// Why the text of this size is refused.
fn refusal_of(alloc: Global, text: &str) -> Option<PlanError> {
    if text.len() > 1_048_576 {
        return None;
    }
    match read_plan(alloc, text.as_bytes()) {
        Ok(_) => None,
        Err(error) => Some(error),
    }
}

/// The bytes that are written for what a text gives.
fn written_again(alloc: Global, text: &str) -> Result<Vec<u8>, PlanError> {
    if text.len() > 1_048_576 {
        return Err(PlanError::NoEnd);
    }
    let plan = read_plan(alloc, text.as_bytes())?;
    match write_plan(alloc, &plan) {
        Ok(text) => Ok(text),
        Err(_) => Err(PlanError::Memory),
    }
}

/// The plan of one chip of this mode that leaves units on these pins.
fn plan_of(alloc: Global, mode: Mode, pins: &[u8]) -> Result<Plan, NoMemory> {
    let name = Name::new(b"U1").ok_or(NoMemory)?;
    let mut chips = Vec::new(alloc);
    chips.push(PlanChip {
        name,
        kind: Kind::Gal16V8,
        mode,
    })?;
    let mut lines = Vec::new(alloc);
    for pin in pins {
        lines.push(PlanLine::Place {
            unit: PinName {
                chip: name,
                pin: *pin,
            },
            chip: name,
            pin: *pin,
        })?;
    }
    Ok(Plan {
        chips: Items::new(chips),
        lines: Items::new(lines),
    })
}

#[test]
fn four_registers(rt: HostRuntime) -> Result<(), Fail> {
    let plan = plan_of(rt.alloc(), Mode::Registered, &[14, 15, 16, 17])?;
    let text = write_plan(rt.alloc(), &plan)?;
    let expected =
        "plan 1\nchip U1 GAL16V8 registered\nplace U1.14 U1.14\nplace U1.15 U1.15\nplace U1.16 U1.16\nplace U1.17 U1.17\nend\n";
    assert_eq!(rt; text.as_slice(), expected.as_bytes());
    Ok(())
}

#[test]
fn spellings_give_the_same_plan(rt: HostRuntime) -> Result<(), Fail> {
    let texts = [
        PLAN,
        "plan 1\r\nchip N1 GAL22V10\r\nchip N2 GAL16V8 complex\r\nplace U1.19 N2.12\r\nabsorb U1.18\r\nend\r\n",
        "# by hand\nplan\t1\n\nchip  N1 GAL22V10 \n # new\nchip N2 GAL16V8\tcomplex\nplace U1.019 N2.000000012\nabsorb\tU1.18\nend",
    ];
    for text in texts {
        let again = written_again(rt.alloc(), text)?;
        assert!(rt; again.as_slice() == PLAN.as_bytes());
    }
    Ok(())
}

#[test]
fn repeated_things_are_read(rt: HostRuntime) {
    let texts = [
        "plan 1\nend\n",
        "plan 1\nchip N1 GAL22V10Q\nchip N1 GAL22V10Q\nend\n",
        "plan 1\nplace U1.1 N1.1\nplace U1.1 N1.1\nabsorb U1.1\nend\n",
        "plan 1\nabsorb U1.0\nabsorb U1.99\nend\n",
    ];
    for text in texts {
        assert_eq!(rt; refusal_of(rt.alloc(), text), None);
    }
}

#[test]
fn the_first_wrong_line_is_refused(rt: HostRuntime) {
    let cases = [
        ("chip N1 GAL22V10\n", PlanError::Line { n: 1 }),
        ("plan 2\nend\n", PlanError::Line { n: 1 }),
        ("plan 1\nplan 1\nend\n", PlanError::Line { n: 2 }),
        ("plan 1\nchip N1\nend\n", PlanError::Line { n: 2 }),
        ("plan 1\nchip N.1 GAL22V10\n", PlanError::Line { n: 2 }),
        ("plan 1\nchip N1 FOO bar\n", PlanError::Line { n: 2 }),
        ("plan 1\nchip N1 GAL16V8\n", PlanError::Line { n: 2 }),
        (
            "plan 1\nchip N1 GAL22V10 simple\n",
            PlanError::Line { n: 2 },
        ),
        ("plan 1\nchip N1 FOO\n", PlanError::KindUnknown { n: 2 }),
        (
            "plan 1\nchip N1 PAL16L8 complex\n",
            PlanError::KindUnknown { n: 2 },
        ),
        (
            "plan 1\n\nabsorb U1.18\nchip N1 FOO\nend\n",
            PlanError::Line { n: 4 },
        ),
        ("plan 1\nabsorb U1.100\nend\n", PlanError::Line { n: 2 }),
        (
            "plan 1\nabsorb U1.0000000018\nend\n",
            PlanError::Line { n: 2 },
        ),
        ("plan 1\nabsorb U1\nend\n", PlanError::Line { n: 2 }),
        ("plan 1\nabsorb U1.1.8\nend\n", PlanError::Line { n: 2 }),
        ("plan 1\nplace U1.18\nend\n", PlanError::Line { n: 2 }),
        ("plan 1\nplace U1.18 N1\nend\n", PlanError::Line { n: 2 }),
        ("plan 1\nend\nabsorb U1.18\n", PlanError::Line { n: 3 }),
        ("plan 1\nend\r", PlanError::Line { n: 2 }),
        ("plan 1\nabsorb U1.18\n", PlanError::NoEnd),
        ("", PlanError::NoEnd),
    ];
    for (text, error) in cases {
        assert_eq!(rt; refusal_of(rt.alloc(), text), Some(error));
    }
}

#[test]
fn too_many_chips_are_refused(rt: HostRuntime) -> Result<(), Fail> {
    let mut text = String::from_str(rt.alloc(), "plan 1\n# chips\n")?;
    for i in 0..64u32 {
        let line = format!(in rt.alloc(); "chip N{i} GAL22V10\n")?;
        text.push_str(line.as_str())?;
    }
    let mut full = text.clone()?;
    full.push_str("end\n")?;
    assert_eq!(rt; refusal_of(rt.alloc(), full.as_str()), None);
    let mut unknown = text.clone()?;
    unknown.push_str("chip N64 FOO\n")?;
    assert_eq!(rt;
        refusal_of(rt.alloc(), unknown.as_str()),
        Some(PlanError::KindUnknown { n: 67 })
    );
    text.push_str("chip N64 GAL22V10\nend\n")?;
    assert_eq!(rt;
        refusal_of(rt.alloc(), text.as_str()),
        Some(PlanError::ChipsOver { n: 67 })
    );
    Ok(())
}

#[test]
fn too_many_lines_are_refused(rt: HostRuntime) -> Result<(), Fail> {
    let mut text = String::from_str(rt.alloc(), "plan 1\n")?;
    for i in 0..512u32 {
        let lines = format!(in rt.alloc(); "place U{i}.18 N1.18\nabsorb U{i}.19\n")?;
        text.push_str(lines.as_str())?;
    }
    let mut full = text.clone()?;
    full.push_str("end\n")?;
    assert_eq!(rt; refusal_of(rt.alloc(), full.as_str()), None);
    text.push_str("absorb U1.17\nend\n")?;
    assert_eq!(rt;
        refusal_of(rt.alloc(), text.as_str()),
        Some(PlanError::LinesOver { n: 1026 })
    );
    Ok(())
}
