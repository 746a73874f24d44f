ghost use Rattle.std.specs.Prelude.{◌≡◌, ◌<◌, ◌^◌, length, Some};
ghost use Rattle.sim_run.specs.ScriptText as spec;
ghost use Rattle.sim_run.specs.Statements.{Answers, Heads, Steps, StepGives, EndsHere, slots_refusal};

use crate::forms::{is_end, is_head, levels_on};
use crate::handed::{HandedPort, handed_ports};
use crate::levels::{any_bad, inputs};
use crate::naming::{Slot, slots_on};
use mig_base::{Inputs, Items, MOST_STEPS, Net, Script, ScriptError};
use std::alloc::Global;
use text_lines::{Line, Lines, words};

/// The script that a text says for the Input and Both ports of a wiring, or the first refusal. Each step has the
/// levels in board order, whatever order the text names the ports in.
///
/// # Errors
/// The refusal of the first line that fails, with its number from 1; `PortLeft` with the number of the first port that
/// the `ports` line doesn't name; `NoEnd` where no line fails and there is no `end`; `Memory`.
pub(crate) fn script_for(alloc: Global, bytes: &[u8], net: &Net) -> Result<Script, ScriptError>
    requires bytes { length bytes.now < 2 ^ 32 }
    ensures { Answers (spec.script_of_text (spec.ports_of net.now) bytes.now) result }
{
    let Ok(ports) = handed_ports(alloc, net) else {
        return Err(ScriptError::Memory);
    };
    script_on(alloc, ports.as_slice(), Lines::new(bytes))
}

/// The script that lines say.
fn script_on(alloc: Global, ports: &[HandedPort], mut lines: Lines) -> Result<Script, ScriptError>
    ensures { Answers (spec.script_of_lines ports.now lines.entry) result }
{
    let Some(head) = lines.next_line() else {
        return Err(ScriptError::NoEnd);
    };
    read_head(alloc, head)?;
    let Some(named) = lines.next_line() else {
        return Err(ScriptError::NoEnd);
    };
    let slots = slots_on(alloc, ports, named)?;
    let steps = read_steps(alloc, slots.as_slice(), lines)?;
    Ok(Script {
        steps: Items::new(steps),
    })
}

/// Refuses a first line that is no head.
fn read_head(alloc: Global, line: Line) -> Result<(), ScriptError>
    ensures { Heads line.entry result }
{
    let Ok(words) = words(alloc, line.text) else {
        return Err(ScriptError::Memory);
    };
    if is_head(words.as_slice()) {
        Ok(())
    } else {
        Err(ScriptError::Line { n: line.n })
    }
}

/// The steps of the lines up to the end, behind which no line stands.
fn read_steps(alloc: Global, slots: &[Slot], mut lines: Lines) -> Result<Vec<Inputs>, ScriptError>
    ensures { Steps (λ steps. steps.items) slots.now lines.entry result }
{
    let mut steps = Vec::new(alloc);
    while let Some(line) = lines.next_line() {
        match read_step(alloc, slots, steps.len(), line)? {
            Some(inputs) => {
                if steps.push(inputs).is_err() {
                    return Err(ScriptError::Memory);
                }
            }
            None => {
                refuse_more(lines)?;
                return Ok(steps);
            }
        }
    }
    Err(ScriptError::NoEnd)
}

/// Refuses a line behind the end.
fn refuse_more(mut lines: Lines) -> Result<(), ScriptError>
    ensures { EndsHere lines.entry result }
{
    match lines.next_line() {
        Some(line) => Err(ScriptError::Line { n: line.n }),
        None => Ok(()),
    }
}

/// The inputs of a line behind so many steps, or none where it is the end.
fn read_step(
    alloc: Global,
    slots: &[Slot],
    count: usize,
    line: Line,
) -> Result<Option<Inputs>, ScriptError>
    ensures { StepGives slots.now count line.entry result }
{
    let Ok(words) = words(alloc, line.text) else {
        return Err(ScriptError::Memory);
    };
    if is_end(words.as_slice()) {
        return Ok(None);
    }
    let Some(levels) = levels_on(words.as_slice()) else {
        return Err(ScriptError::Line { n: line.n });
    };
    if let Some(error) = levels_refusal(slots, count, line.n, levels) {
        return Err(error);
    }
    match inputs(alloc, slots, levels) {
        Ok(inputs) => Ok(Some(inputs)),
        Err(_) => Err(ScriptError::Memory),
    }
}

/// What is wrong with the characters of a step behind so many others.
fn levels_refusal(slots: &[Slot], count: usize, n: u32, levels: &[u8]) -> Option<ScriptError>
    ensures { result ≡ slots_refusal slots.now n count (Some levels.now) }
{
    if levels.len() != slots.len() {
        return Some(ScriptError::Line { n });
    }
    if any_bad(slots, levels) {
        return Some(ScriptError::LevelBad { n });
    }
    (count >= MOST_STEPS).then_some(ScriptError::StepsOver { n })
}
