ghost use Rattle.std.specs.Prelude.{◌≡◌, ℕ, List, Option, Ok, true, IfOk, MatchResult};
ghost use Rattle.answers.specs.declared.words.Command.TheVariants as command;
ghost use Rattle.verdicts.specs.commands.Migrate.{PreparesMigration, LoadsMigration, LoadsPlan, MigratesBy, migrated_or_later, migrated, is_taken_board};
ghost use Rattle.verdicts.specs.Clauses.{Keeps};
ghost use Rattle.palmig_top.specs.Steps.{Step, Finds, IsEnd};
ghost use Rattle.palmig_top.specs.Reading.{IsReadBoard};
ghost use Rattle.palmig_top.specs.Preparing.{outcome_in};

use crate::boards::read_board;
use crate::commands::planned::by_plan;
use crate::concluding::conclude;
use crate::loads::named;
use crate::new_files::{done_report, new_files};
use crate::prepared::Prepared;
use answers::{Exit, Migration, Refusal};
use board::Board;
use build::rebuild;
use built_files::written_files;
use mig_base::{Items, Stem};
use mig_io::{Files, Sink};
use std::alloc::Global;
use taken_boards::{is_taken_form, is_taken_wiring};

/// The new board's files and the report.
fn rebuilt(alloc: Global, new: &Stem, board: &Board) -> Result<Prepared, Exit>
    requires read { IsReadBoard board.now }
    requires taken { is_taken_board board.now ≡ true }
    ensures { MatchResult result (λ p. outcome_in p ≡ migrated new.now board.now) (λ e. e ≡ Exit.Memory) }
{
    let made = rebuild(alloc, board.net(), board.chips(), board.circuit())?;
    let files = written_files(alloc, made.chips.items(), &made.plan, &made.net)?;
    let saves = new_files(alloc, new, files)?;
    let old_count = board.net().chips.items().len();
    let report = done_report(alloc, old_count, made.chips.items().len())?;
    Ok(Prepared {
        answer: Exit::Done,
        saves: Items::new(saves),
        report,
    })
}

/// Whether a board is migrated so far.
fn is_taken(board: &Board) -> bool
    ensures { result ≡ is_taken_board board.now }
{
    is_taken_wiring(board.net()) && is_taken_form(board.net(), board.circuit())
}

/// The new board's files and the report, or why the board is not migrated.
fn prepared_of(alloc: Global, migration: &Migration, board: &Board) -> Result<Prepared, Exit>
    requires { IsReadBoard board.now }
    ensures { Finds outcome_in (λ q. migrated_or_later migration.now board.now ≡ q) result }
{
    if !is_taken(board) {
        let name = named(alloc, &migration.old, None, "net")?;
        return Err(Exit::Refused(Refusal::Later(name)));
    }
    rebuilt(alloc, &migration.new, board)
}

/// The new board's files and the report, by the plan that is handed, if one is.
fn prepare_on<F: Files>(
    alloc: Global,
    files: &mut F,
    migration: &Migration,
    board: &Board,
) -> Result<Prepared, Exit>
    requires { IsReadBoard board.now }
    ensures step { Step outcome_in (λ h q. MigratesBy migration.now migration.now.plan h board.now q) (λ h f. LoadsPlan migration.now.plan f) (F.held files.old) (F.held files.new) (F.counts files.old) (F.counts files.new) result }
    ensures end { IfOk result (λ p. IsEnd (outcome_in p)) }
{
    match &migration.plan {
        Some(plan) => by_plan(alloc, files, migration, plan, board),
        None => prepared_of(alloc, migration, board),
    }
}

/// Loads the old board and prepares the new one.
fn prepare_migration<F: Files>(
    alloc: Global,
    files: &mut F,
    migration: &Migration,
) -> Result<Prepared, Exit>
    ensures step { Step outcome_in (PreparesMigration migration.now) (LoadsMigration migration.now) (F.held files.old) (F.held files.new) (F.counts files.old) (F.counts files.new) result }
    ensures end { IfOk result (λ p. IsEnd (outcome_in p)) }
{
    let board = read_board(alloc, files, &migration.old)?;
    prepare_on(alloc, files, migration, &board)
}

/// `migrate`.
pub fn migrate<F: Files, O: Sink>(
    alloc: Global,
    files: &mut F,
    out: &mut O,
    migration: &Migration,
) -> Exit
    ensures { Keeps (record {
      said = Ok (command.Migrate migration.now);
      held = F.held files.old;
      after = F.held files.new;
      before = F.counts files.old;
      now = F.counts files.new;
      sent = O.sent out.old;
      sent_after = O.sent out.new;
      faults = O.faults out.old;
      faults_after = O.faults out.new;
    }) result }
{
    let prepared = prepare_migration(alloc, files, migration);
    conclude(alloc, files, out, prepared)
}
