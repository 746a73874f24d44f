ghost use Rattle.std.specs.Prelude.{◌≡◌, ◌≤◌, ℕ, List, Option, Ok, IfOk, vec_len};
ghost use Rattle.answers.specs.declared.words.Command.TheVariants as command;
ghost use Rattle.verdicts.specs.HeldBoard.{sim_file};
ghost use Rattle.verdicts.specs.commands.Sim.{script_held, script_of, most_script_bytes};
ghost use Rattle.verdicts.specs.Clauses.{Keeps};
ghost use Rattle.palmig_top.specs.Steps.{Step, Finds};
ghost use Rattle.palmig_top.specs.Concluding.{PutsShows, RunsOn, EndsBoard};
ghost use Rattle.palmig_top.specs.Reading.{IsReadWiring, IsReadBoard, IsReadScript};

use crate::boards::read_board;
use crate::loads::{Loaded, load, named};
use crate::telling::tell;
use answers::{Exit, Refusal, Simulation};
use board::Board;
use mig_base::{MOST_SCRIPT_BYTES, Script, ScriptError, Stem};
use mig_io::{Files, PutError, Sink};
use shown_runs::put_run;
use sim_run::read_script;
use std::alloc::Global;

/// The script for a board in a script file.
fn script_in(alloc: Global, file: Loaded, board: &Board) -> Result<Script, Exit>
    requires { vec_len file.bytes ≤ most_script_bytes }
    ensures says { Finds (λ script. script) (λ q. script_of file.name board.now.net file.bytes.items ≡ q) result }
    ensures read { IfOk result (λ script. IsReadScript board.now.net script) }
{
    match read_script(alloc, &file.bytes, board) {
        Ok(script) => Ok(script),
        Err(ScriptError::Memory) => Err(Exit::Memory),
        Err(e) => Err(Exit::Refused(Refusal::Script(file.name, e))),
    }
}

/// Loads the script for a board.
fn read_script_for<F: Files>(
    alloc: Global,
    files: &mut F,
    stem: &Stem,
    board: &Board,
) -> Result<Script, Exit>
    ensures step { Step (λ script. script) (λ h q. script_held h (sim_file stem.now) board.now ≡ q) (λ h f. f ≡ sim_file stem.now) (F.held files.old) (F.held files.new) (F.counts files.old) (F.counts files.new) result }
    ensures read { IfOk result (λ script. IsReadScript board.now.net script) }
{
    let name = named(alloc, stem, None, "sim")?;
    let file = load(alloc, files, name, MOST_SCRIPT_BYTES)?;
    script_in(alloc, file, board)
}

/// Puts what a board shows under a script.
fn put_shows<O: Sink>(alloc: Global, out: &mut O, board: &Board, script: &Script) -> Exit
    requires wiring { IsReadWiring board.now.net }
    requires script { IsReadScript board.now.net script.now }
    ensures { PutsShows board.now script.now (record { sent = O.sent out.old; after = O.sent out.new; faults = O.faults out.old; faults_after = O.faults out.new }) result }
{
    match put_run(alloc, board, script, out) {
        Ok(()) => Exit::Done,
        Err(PutError::Failed) => Exit::OutFault,
        Err(PutError::Memory) => Exit::Memory,
    }
}

/// Loads the script for a board, and puts what the board shows.
fn run_on<F: Files, O: Sink>(
    alloc: Global,
    files: &mut F,
    out: &mut O,
    simulation: &Simulation,
    board: &Board,
) -> Exit
    requires { IsReadWiring board.now.net }
    ensures { RunsOn simulation.now board.now (F.held files.old) (F.held files.new) (F.counts files.old) (F.counts files.new)
        (record { sent = O.sent out.old; after = O.sent out.new; faults = O.faults out.old; faults_after = O.faults out.new }) result }
{
    match read_script_for(alloc, files, &simulation.script, board) {
        Ok(script) => put_shows(alloc, out, board, &script),
        Err(e) => tell(alloc, out, e, board.net().nets.items()),
    }
}

/// Ends a run whose board was read, or was not.
fn end_run<F: Files, O: Sink>(
    alloc: Global,
    files: &mut F,
    out: &mut O,
    simulation: &Simulation,
    board: Result<Board, Exit>,
) -> Exit
    requires { IfOk board (λ b. IsReadBoard b) }
    ensures { EndsBoard simulation.now board (F.held files.old) (F.held files.new) (F.counts files.old) (F.counts files.new)
        (record { sent = O.sent out.old; after = O.sent out.new; faults = O.faults out.old; faults_after = O.faults out.new }) result }
{
    match board {
        Ok(board) => run_on(alloc, files, out, simulation, &board),
        Err(e) => tell(alloc, out, e, &[]),
    }
}

/// `sim`.
pub fn sim<F: Files, O: Sink>(
    alloc: Global,
    files: &mut F,
    out: &mut O,
    simulation: &Simulation,
) -> Exit
    ensures { Keeps (record {
      said = Ok (command.Sim simulation.now);
      held = F.held files.old;
      after = F.held files.new;
      before = F.counts files.old;
      now = F.counts files.new;
      sent = O.sent out.old;
      sent_after = O.sent out.new;
      faults = O.faults out.old;
      faults_after = O.faults out.new;
    }) result }
{
    let board = read_board(alloc, files, &simulation.board);
    end_run(alloc, files, out, simulation, board)
}
