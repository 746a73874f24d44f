ghost use Rattle.std.specs.Prelude.{◌≡◌, map, IfOk, if◌then◌else◌};
ghost use Rattle.mig_base.specs.First.{made_from};
ghost use Rattle.trials.specs.Trials.{bit_level as level_of_bit, count_bit, counted as level_counted, counted_from};

use mig_base::{Inputs, Items, Level, NoMemory, Port};
use std::alloc::Global;

/// 0 for the number 0, else 1.
pub(crate) fn bit_level(bit: u64) -> Level
    ensures { result ≡ level_of_bit bit }
{
    if bit == 0 { Level::Zero } else { Level::One }
}

/// What the port of this number and direction is handed in this step: a bit of the step's number. Where Both ports don't
/// count they float.
pub(crate) fn counted(both: bool, step: u64, number: usize, port: Port) -> Level
    ensures { result ≡ level_counted (if both then 1 else 0) step number port }
{
    if !both && matches!(port, Port::Both) {
        return Level::Z;
    }
    bit_level((step >> (number % 6)) % 2)
}

/// The levels of the ports in one step.
fn counted_step(alloc: Global, ports: &[Port], both: bool, step: u64) -> Result<Inputs, NoMemory>
    ensures { IfOk result (λ given. given.levels ≡ counted_from (if both then 1 else 0) step 0 ports.now) }
{
    let mut levels = Vec::with_capacity(alloc, ports.len())?;
    for (number, port) in ports.iter().enumerate() {
        levels.push(counted(both, step, number, *port))?;
    }
    Ok(Inputs {
        levels: Items::new(levels),
    })
}

/// So many steps that count through the bits of their numbers.
pub(crate) fn counted_steps(
    alloc: Global,
    ports: &[Port],
    both: bool,
    count: u64,
) -> Result<Vec<Inputs>, NoMemory>
    ensures { IfOk result (λ steps. map (λ given. given.levels) steps.items ≡ made_from (λ n. counted_from (if both then 1 else 0) n 0 ports.now) 0 count) }
{
    let mut steps = Vec::new(alloc);
    for step in 0..count {
        steps.push(counted_step(alloc, ports, both, step)?)?;
    }
    Ok(steps)
}
