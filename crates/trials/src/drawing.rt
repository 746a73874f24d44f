ghost use Rattle.std.specs.Prelude.{◌≡◌, map, IfOk};
ghost use Rattle.trials.specs.Trials.{both_level as level_of_both, drawn as level_drawn, drawn_step as step_drawn, drawn_steps as steps_drawn, stir as next_number, stirred};

use crate::counting::bit_level;
use mig_base::{Inputs, Items, Level, NoMemory, Port};
use std::alloc::Global;

/// The factor and the summand of the next number.
const FACTOR: u64 = 6_364_136_223_846_793_005;

const SUMMAND: u64 = 1_442_695_040_888_963_407;

/// The next number.
pub(crate) fn stir(number: u64) -> u64
    ensures { result ≡ next_number number }
{
    number.wrapping_mul(FACTOR).wrapping_add(SUMMAND)
}

/// 0, 1, Z, Z for two bits.
fn both_level(bits: u64) -> Level
    ensures { result ≡ level_of_both bits }
{
    if bits == 0 {
        return Level::Zero;
    }
    if bits == 1 {
        return Level::One;
    }
    Level::Z
}

/// The level of a port of this direction by a number: the top bit for an Input port, the two top bits for a Both port.
pub(crate) fn drawn(port: Port, number: u64) -> Level
    ensures { result ≡ level_drawn port number }
{
    match port {
        Port::Both => both_level(number >> 62),
        Port::Inner | Port::Input | Port::Output => bit_level(number >> 63),
    }
}

/// The levels of the ports in one step, each drawn from the next number, and the last number.
fn drawn_step(alloc: Global, ports: &[Port], start: u64) -> Result<(Inputs, u64), NoMemory>
    ensures levels { IfOk result (λ drawn. drawn.0.levels ≡ step_drawn ports.now start) }
    ensures last { IfOk result (λ drawn. drawn.1 ≡ stirred ports.now start) }
{
    let mut number = start;
    let mut levels = Vec::with_capacity(alloc, ports.len())?;
    for port in ports {
        number = stir(number);
        levels.push(drawn(*port, number))?;
    }
    let given = Inputs {
        levels: Items::new(levels),
    };
    Ok((given, number))
}

/// So many steps whose levels are drawn, from this number on.
pub(crate) fn drawn_steps(
    alloc: Global,
    ports: &[Port],
    start: u64,
    count: u64,
) -> Result<Vec<Inputs>, NoMemory>
    ensures { IfOk result (λ steps. map (λ given. given.levels) steps.items ≡ steps_drawn count ports.now start) }
{
    let mut number = start;
    let mut steps = Vec::new(alloc);
    for done in 0..count {
        let (given, next) = drawn_step(alloc, ports, number)?;
        steps.push(given)?;
        number = next;
    }
    Ok(steps)
}
