ghost use Rattle.std.specs.Prelude.{ℕ, ◌≡◌, ◌<◌, ◌^◌, List, All, length, map, IfOk, Ok};
ghost use Rattle.mig_base.specs.declared.levels.Level.{Level as LevelOf};
ghost use Rattle.level_laws.specs.Runs.{IsRun};
ghost use Rattle.sim_run.specs.ScriptText.{ports_of, script_of_text};
ghost use Rattle.sim_run.specs.Statements.{Answers};
ghost use Rattle.sim_run.specs.WrittenScript.{IsWritableScript, written_script};
ghost use Rattle.level_laws.specs.PureLevels.{ShowsPure};
ghost use Rattle.board.specs.Joined.{equations_of};
ghost use Rattle.settle.specs.Made.{IsInputFor};

use crate::reading::script_for;
use crate::shows::{Shown, shown_of};
use crate::writing::text_of;
use board::Board;
use mig_base::{NoMemory, Script, ScriptError};
use settle::{power_up, step};
use std::alloc::Global;

/// The script that a text says for the Input and Both ports of a board, or the first refusal. Each step has the levels in
/// board order, whatever order the text names the ports in.
///
/// # Errors
/// The refusal of the first line that fails, with its number from 1; `PortLeft` with the net number of the first port that
/// the `ports` line doesn't name; `NoEnd` where no line fails and there is no `end`; `Memory`.
pub fn read_script(alloc: Global, bytes: &[u8], b: &Board) -> Result<Script, ScriptError>
    requires bytes { length bytes.now < 2 ^ 32 }
    ensures said { Answers (script_of_text (ports_of b.now.net) bytes.now) result }
    ensures writable { IfOk result (IsWritableScript b.now.net) }
    ensures lawful { IfOk result (λ script. All (λ given. IsInputFor (equations_of b.now) given.levels) script.steps) }
{
    script_for(alloc, bytes, b.net())
}

/// The text of a script for a board: the head, the Input and Both ports in board order, a line for each step, and the end.
/// The script is one that a text can say for this board, and the text says it again. Only want of memory refuses it.
pub fn write_script(alloc: Global, b: &Board, script: &Script) -> Result<Vec<u8>, NoMemory>
    requires script { IsWritableScript b.now.net script.now }
    ensures written { IfOk result (λ text. text.items ≡ written_script b.now.net script.now) }
    ensures read_back { IfOk result (λ text. script_of_text (ports_of b.now.net) text.items ≡ Ok script.now) }
{
    text_of(alloc, b.net(), script)
}

/// What a board shows from power-up after each step of a script: 0 or 1 at each pure port. Only want of memory refuses it.
pub fn run_script(alloc: Global, b: &Board, script: &Script) -> Result<Vec<Shown>, NoMemory>
    requires script { All (λ given. IsInputFor (equations_of b.now) given.levels) script.now.steps }
    ensures run { IfOk result (λ showns. IsRun (equations_of b.now) (map (λ given. given.levels) script.now.steps) (map (λ shown. shown.levels) showns.items)) }
    ensures only { IfOk result (λ showns. (others : List (List LevelOf)) → IsRun (equations_of b.now) (map (λ given. given.levels) script.now.steps) others →
        map (λ shown. shown.levels) showns.items ≡ others) }
    ensures pure { IfOk result (λ showns. All (λ shown. ShowsPure (equations_of b.now) shown.levels) showns.items) }
{
    let ports = b.circuit().ports.items().len();
    let mut config = power_up(alloc, b)?;
    let mut showns = Vec::with_capacity(alloc, script.steps.items().len())?;
    for inputs in script.steps.items() {
        step(b, &mut config, inputs);
        showns.push(shown_of(alloc, b, &config, ports)?)?;
    }
    Ok(showns)
}
