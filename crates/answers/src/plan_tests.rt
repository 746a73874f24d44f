use super::*;
use mig_base::{Breach, FileName, Name, NoMemory, Node, PinName, PlanError, Stem, Var, file_name};
use std::alloc::Global;
use std::test::Fail;

/// The pin of chip U1 of this number.
fn pin_of_u1(pin: u8) -> Result<PinName, NoMemory> {
    let chip = Name::new(b"U1").ok_or(NoMemory)?;
    Ok(PinName { chip, pin })
}

/// The plan file of this stem.
fn plan_file(alloc: Global, stem: &[u8]) -> Result<FileName, NoMemory> {
    let stem = Stem::new(alloc, stem).ok().ok_or(NoMemory)?;
    file_name(alloc, &stem, None, "plan")
}

/// The report of a breach.
fn told(alloc: Global, breach: Breach) -> Result<Vec<u8>, NoMemory> {
    let text = report(alloc, &Exit::Breached(breach), &[])?;
    Ok(text)
}

#[test]
fn tells_breaches(rt: HostRuntime) -> Result<(), Fail> {
    let alloc = rt.alloc();
    let unit = pin_of_u1(19)?;
    let text = told(alloc, Breach::FullRow { unit })?;
    assert_eq!(rt; text.as_slice(), "breached FullRow U1.19\n".as_bytes());
    let unit = pin_of_u1(19)?;
    let text = told(alloc, Breach::PinTaken { unit, pin: 14 })?;
    assert_eq!(rt; text.as_slice(), "breached PinTaken U1.19 14\n".as_bytes());
    Ok(())
}

#[test]
fn tells_breaches_of_chips(rt: HostRuntime) -> Result<(), Fail> {
    let alloc = rt.alloc();
    let unit = pin_of_u1(19)?;
    let chip = Name::new(b"N1").ok_or(NoMemory)?;
    let text = told(alloc, Breach::ChipUnknown { unit, chip })?;
    assert_eq!(rt;
        text.as_slice(),
        "breached ChipUnknown U1.19 N1\n".as_bytes()
    );
    Ok(())
}

#[test]
fn tells_breaches_with_numbers(rt: HostRuntime) -> Result<(), Fail> {
    let alloc = rt.alloc();
    let unit = pin_of_u1(19)?;
    let (needed, most) = (17, 16);
    let text = told(alloc, Breach::TermsOver { unit, needed, most })?;
    assert_eq!(rt;
        text.as_slice(),
        "breached TermsOver U1.19 17 16\n".as_bytes()
    );
    Ok(())
}

#[test]
fn tells_signals_without_a_pin(rt: HostRuntime) -> Result<(), Fail> {
    let alloc = rt.alloc();
    let chip = Name::new(b"N1").ok_or(NoMemory)?;
    let variable = Var::Reg(0);
    let register = Node::Reg(pin_of_u1(17)?);
    let text = breached(alloc, Some(&register), &Breach::NoInput { chip, variable })?;
    assert_eq!(rt; text.as_slice(), "breached NoInput N1 U1.17:Q\n".as_bytes());
    Ok(())
}

#[test]
fn tells_refused_plans(rt: HostRuntime) -> Result<(), Fail> {
    let alloc = rt.alloc();
    for (error, wanted) in [
        (PlanError::Line { n: 3 }, "refused plan p.plan Line 3\n"),
        (
            PlanError::LinesOver { n: 1028 },
            "refused plan p.plan LinesOver 1028\n",
        ),
        (PlanError::NoEnd, "refused plan p.plan NoEnd\n"),
    ] {
        let refusal = Refusal::PlanText(plan_file(alloc, b"p")?, error);
        let text = report(alloc, &Exit::Refused(refusal), &[])?;
        assert_eq!(rt; text.as_slice(), wanted.as_bytes());
    }
    Ok(())
}

#[test]
fn reads_handed_plans(rt: HostRuntime) -> Result<(), Fail> {
    let alloc = rt.alloc();
    let Ok(Command::Migrate(migration)) = read_words(alloc, &["migrate", "a", "b", "a"]) else {
        return Err(Fail::from(NoMemory));
    };
    let Migration { plan, .. } = migration;
    let Some(plan) = plan else {
        return Err(Fail::from(NoMemory));
    };
    assert_eq!(rt; plan.text(), "a");
    Ok(())
}

#[test]
fn refuses_new_names_that_are_read(rt: HostRuntime) -> Result<(), Fail> {
    let alloc = rt.alloc();
    for words in [["migrate", "a", "a", "p"], ["migrate", "a", "b", "b"]] {
        let read = read_words(alloc, &words);
        assert!(rt;
            matches!(read, Err(Exit::Refused(Refusal::Clash))),
            "{}",
            words[2]
        );
    }
    Ok(())
}
