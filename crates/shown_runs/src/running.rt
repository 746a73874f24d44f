ghost use Rattle.std.specs.Prelude.{ℕ, List, Option, IsTrue};
ghost use Rattle.std.specs.List.{list_all};
ghost use Rattle.mig_io.specs.Counts.{PutCauses};
ghost use Rattle.sim_run.specs.ScriptText.{ports_of};
ghost use Rattle.sim_run.specs.WrittenScript.{fit};
ghost use Rattle.shown_runs.specs.Sending.{PutsRun};

use crate::pieces::put_piece;
use crate::progress::{begin, show_step};
use board::Board;
use mig_base::Script;
use mig_io::{PutError, Sink};
use std::alloc::Global;

/// Runs a board from power-up under a script that can be read for it, and sends the report: the line of the ports, and a
/// line for each step. It is sent in pieces, so that room is that of the board, one piece and one line.
///
/// # Errors
/// What the sink answers, or `Memory`; the first part of the report was sent then.
pub fn put_run<O: Sink>(
    alloc: Global,
    board: &Board,
    script: &Script,
    out: &mut O,
) -> Result<(), PutError>
    requires { IsTrue (list_all (λ s. fit (ports_of board.now.net) s.levels) script.now.steps) }
    ensures sent { PutsRun board.now script.now (O.sent out.old) (O.sent out.new) result }
    ensures causes { PutCauses (O.faults out.old) (O.faults out.new) result }
{
    let Ok(mut progress) = begin(alloc, board) else {
        return Err(PutError::Memory);
    };
    for inputs in script.steps.items() {
        show_step(board, &mut progress, inputs)?;
        put_piece(alloc, &mut progress.text, out)?;
    }
    out.put(alloc, progress.text.as_bytes())
}
