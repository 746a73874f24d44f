ghost use Rattle.std.specs.Prelude.{◌≡◌, ◌∷◌, ◌++◌, [], map, if◌then◌else◌, IfOk, OnOk, string_bytes, Ok, codes};
ghost use Rattle.std.specs.List.{flat_map};
ghost use Rattle.mig_base.specs.Boards.{is_handed as handed_by};
ghost use Rattle.mig_base.specs.WrittenBoard.{written_line};
ghost use Rattle.sim_run.specs.ScriptText.{ports_of, ports_from, script_of_text};
ghost use Rattle.sim_run.specs.WrittenScript.{written_script, ports_line, step_line, IsWritableScript};
ghost use Rattle.mig_base.specs.Levels.{level_code};

use crate::handed::is_handed;
use mig_base::{Inputs, Level, Net, NetLine, NoMemory, Script};
use std::alloc::{AllocError, Global};
use text_lines::write_line;

/// The text of a script for a wiring: the head, the Input and Both ports in board order, a line for each step, and the
/// end. The script is one that a text can say for this wiring, and the text says it again. Fails for want of memory
/// alone.
pub(crate) fn text_of(alloc: Global, net: &Net, script: &Script) -> Result<Vec<u8>, NoMemory>
    requires { IsWritableScript net.now script.now }
    ensures written { IfOk result (λ text. text.items ≡ written_script net.now script.now) }
    ensures read_back { IfOk result (λ text. script_of_text (ports_of net.now) text.items ≡ Ok script.now) }
{
    let mut text = String::new(alloc);
    write_line(&mut text, &["script", "1"])?;
    write_ports(&mut text, net.nets.items())?;
    write_steps(&mut text, script.steps.items())?;
    write_line(&mut text, &["end"])?;
    Ok(text.into_bytes())
}

/// Writes the names of the Input and Both ports among the named nets.
fn write_ports(text: &mut String, nets: &[NetLine]) -> Result<(), AllocError>
    ensures { OnOk result (string_bytes text.new ≡ string_bytes text.old ++ written_line (ports_line (ports_from 2 nets.now))) }
{
    text.push_str("ports")?;
    for line in nets {
        write_port(text, line)?;
    }
    text.push_str("\n")
}

/// Writes a space and the name of an Input or Both port.
fn write_port(text: &mut String, line: &NetLine) -> Result<(), AllocError>
    ensures { OnOk result (string_bytes text.new ≡ string_bytes text.old ++ (if handed_by line.now.port then 32 ∷ line.now.name else [])) }
{
    if is_handed(line.port) {
        text.push_str(" ")?;
        text.push_str(line.name.text())?;
    }
    Ok(())
}

fn write_steps(text: &mut String, steps: &[Inputs]) -> Result<(), AllocError>
    ensures { OnOk result (string_bytes text.new ≡ string_bytes text.old ++ flat_map written_line (map (λ s. step_line s.levels) steps.now)) }
{
    for step in steps {
        write_step(text, step.levels.items())?;
    }
    Ok(())
}

fn write_step(text: &mut String, levels: &[Level]) -> Result<(), AllocError>
    ensures { OnOk result (string_bytes text.new ≡ string_bytes text.old ++ written_line (step_line levels.now)) }
{
    match levels {
        [] => write_line(text, &["step"]),
        _ => write_levels(text, levels),
    }
}

/// Writes the word and the levels.
fn write_levels(text: &mut String, levels: &[Level]) -> Result<(), AllocError>
    ensures { OnOk result (string_bytes text.new ≡ string_bytes text.old ++ written_line (codes "step" ∷ map level_code levels.now ∷ [])) }
{
    text.push_str("step ")?;
    for level in levels {
        text.push_str(level_text(*level))?;
    }
    text.push_str("\n")
}

fn level_text(level: Level) -> &'static str
    ensures { result.now ≡ level_code level ∷ [] }
{
    match level {
        Level::Zero => "0",
        Level::One => "1",
        Level::Z => "Z",
        Level::X => "X",
    }
}
