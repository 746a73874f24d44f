ghost use Rattle.std.specs.Prelude.{◌≡◌, ℕ, List, Option, Ok, IfOk};
ghost use Rattle.answers.specs.declared.words.Command.TheVariants as command;
ghost use Rattle.verdicts.specs.commands.Check.{Checks, PreparesCheck, LoadsCheck};
ghost use Rattle.verdicts.specs.Clauses.{Keeps};
ghost use Rattle.palmig_top.specs.Steps.{Step, Finds, IsEnd};
ghost use Rattle.palmig_top.specs.Preparing.{outcome_in, IsCounted};

use crate::boards::read_board;
use crate::concluding::conclude;
use crate::prepared::Prepared;
use answers::{Counted, Exit, accepted};
use board::Board;
use mig_base::{Items, Stem};
use mig_io::{Files, Sink};
use std::alloc::Global;

/// What a board counts.
fn counted(board: &Board) -> Counted
    ensures { IsCounted board.now result }
{
    let net = board.net();
    let circuit = board.circuit();
    Counted {
        chips: net.chips.items().len(),
        nets: net.nets.items().len(),
        units: circuit.units.items().len(),
        registers: circuit.registers.items().len(),
        rank: board.rank(),
    }
}

/// Nothing to save, and what the board counts.
fn checked(alloc: Global, board: &Board) -> Result<Prepared, Exit>
    ensures found { Finds outcome_in (Checks board.now) result }
    ensures end { IfOk result (λ p. IsEnd (outcome_in p)) }
{
    let report = accepted(alloc, counted(board))?;
    Ok(Prepared {
        answer: Exit::Done,
        saves: Items::new(Vec::new(alloc)),
        report,
    })
}

/// Loads a board and counts it.
fn prepare_check<F: Files>(alloc: Global, files: &mut F, stem: &Stem) -> Result<Prepared, Exit>
    ensures step { Step outcome_in (PreparesCheck stem.now) (LoadsCheck stem.now) (F.held files.old) (F.held files.new) (F.counts files.old) (F.counts files.new) result }
    ensures end { IfOk result (λ p. IsEnd (outcome_in p)) }
{
    let board = read_board(alloc, files, stem)?;
    checked(alloc, &board)
}

/// `check`.
pub fn check<F: Files, O: Sink>(alloc: Global, files: &mut F, out: &mut O, stem: &Stem) -> Exit
    ensures { Keeps (record {
      said = Ok (command.Check stem.now);
      held = F.held files.old;
      after = F.held files.new;
      before = F.counts files.old;
      now = F.counts files.new;
      sent = O.sent out.old;
      sent_after = O.sent out.new;
      faults = O.faults out.old;
      faults_after = O.faults out.new;
    }) result }
{
    let prepared = prepare_check(alloc, files, stem);
    conclude(alloc, files, out, prepared)
}
