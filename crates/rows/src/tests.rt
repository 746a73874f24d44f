use crate::commands::answer;
use crate::desk::Desk;
use crate::faults::Fault;
use std::test::Fail;

/// Lines that can't be carried out while `x.net` holds `abc`.
const WRONG: [(&str, Fault); 16] = [
    ("change x.net b1 b2", Fault::NoPart),
    ("change y.net a b", Fault::NotHeld),
    ("print x.net y.net", Fault::NotHeld),
    ("drop y.net", Fault::NotHeld),
    ("same y x", Fault::NotHeld),
    ("copy y.net z.net", Fault::NotHeld),
    ("disk save y.net", Fault::NotHeld),
    ("file y.net", Fault::Disk),
    ("disk remove y.net", Fault::Disk),
    ("text y abc", Fault::Name),
    ("text y.net \"abc", Fault::Spelling),
    ("text y.net \"\\y\"", Fault::Spelling),
    ("migrate x y", Fault::Command),
    ("bad sum 1", Fault::Command),
    ("bad load one", Fault::Command),
    ("repeat y.net a b c d", Fault::Command),
];

#[test]
fn wrong_lines_are_errors(rt: HostRuntime) -> Result<(), Fail> {
    let alloc = rt.alloc();
    let mut desk = Desk::new(alloc);
    assert!(rt; answer(&rt, alloc, &mut desk, "text x.net abc").is_ok());
    for (line, fault) in WRONG {
        let found = answer(&rt, alloc, &mut desk, line).err();
        assert!(rt; found == Some(fault), "{line}");
    }
    Ok(())
}
