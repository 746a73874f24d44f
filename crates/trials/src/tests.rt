//! Levels of trials, worked out by hand.

use crate::counting::counted;
use crate::drawing::{drawn, stir};
use mig_base::{Level, Port};
use std::test::Fail;

/// The bits of the number of a step, from the seventh port on again from the first; a Both port floats, or counts too.
#[test]
fn ports_count(rt: HostRuntime) -> Result<(), Fail> {
    assert_eq!(rt; counted(false, 1, 0, Port::Input), Level::One);
    assert_eq!(rt; counted(false, 1, 1, Port::Input), Level::Zero);
    assert_eq!(rt; counted(false, 32, 5, Port::Input), Level::One);
    assert_eq!(rt; counted(false, 1, 6, Port::Input), Level::One);
    assert_eq!(rt; counted(false, 1, 0, Port::Both), Level::Z);
    assert_eq!(rt; counted(true, 1, 0, Port::Both), Level::One);
    Ok(())
}

/// The numbers behind 2, and the levels by their top bits.
#[test]
fn ports_draw(rt: HostRuntime) -> Result<(), Fail> {
    let number = stir(2);
    assert_eq!(rt; number, 14_170_967_488_582_549_417);
    assert_eq!(rt; stir(number), 16_917_806_452_429_146_372);
    assert_eq!(rt; drawn(Port::Input, number), Level::One);
    assert_eq!(rt; drawn(Port::Both, number), Level::Z);
    assert_eq!(rt; drawn(Port::Both, 6_724_033_332_004_656_598), Level::One);
    Ok(())
}
