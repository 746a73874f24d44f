ghost use Rattle.std.specs.Prelude.{◌≡◌, ℕ, List, Option, Ok, map};
ghost use Rattle.answers.specs.Commands.{command_or_refusal};
ghost use Rattle.verdicts.specs.Answer.{IsVerdict, IsCaused};
ghost use Rattle.verdicts.specs.Clauses.{LeavesFilesIn, Reports, IsMigrated, Keeps};

use crate::commands::check::check;
use crate::commands::list::list;
use crate::commands::migrate::migrate;
use crate::commands::sim::sim;
use crate::telling::tell;
use answers::{Command, Exit, read_words};
use mig_io::{Files, Sink};
use std::alloc::Global;

/// Carries out a command over these files, and puts its report.
fn perform<F: Files, O: Sink>(alloc: Global, files: &mut F, out: &mut O, command: &Command) -> Exit
    ensures { Keeps (record {
      said = Ok command.now;
      held = F.held files.old;
      after = F.held files.new;
      before = F.counts files.old;
      now = F.counts files.new;
      sent = O.sent out.old;
      sent_after = O.sent out.new;
      faults = O.faults out.old;
      faults_after = O.faults out.new;
    }) result }
{
    match command {
        Command::Migrate(migration) => migrate(alloc, files, out, migration),
        Command::List(listing) => list(alloc, files, out, listing),
        Command::Check(board) => check(alloc, files, out, board),
        Command::Sim(simulation) => sim(alloc, files, out, simulation),
    }
}

/// Runs the command of these words over these files, and puts its report.
pub fn run<F: Files, O: Sink>(alloc: Global, words: &[&str], files: &mut F, out: &mut O) -> Exit
    ensures verdict { IsVerdict (record {
      said = command_or_refusal (map (λ w. w.now) words.now);
      held = F.held files.old;
      after = F.held files.new;
      before = F.counts files.old;
      now = F.counts files.new;
      sent = O.sent out.old;
      sent_after = O.sent out.new;
      faults = O.faults out.old;
      faults_after = O.faults out.new;
    }) result }
    ensures faults { IsCaused (record {
      said = command_or_refusal (map (λ w. w.now) words.now);
      held = F.held files.old;
      after = F.held files.new;
      before = F.counts files.old;
      now = F.counts files.new;
      sent = O.sent out.old;
      sent_after = O.sent out.new;
      faults = O.faults out.old;
      faults_after = O.faults out.new;
    }) result }
    ensures files { LeavesFilesIn (record {
      said = command_or_refusal (map (λ w. w.now) words.now);
      held = F.held files.old;
      after = F.held files.new;
      before = F.counts files.old;
      now = F.counts files.new;
      sent = O.sent out.old;
      sent_after = O.sent out.new;
      faults = O.faults out.old;
      faults_after = O.faults out.new;
    }) result }
    ensures report { Reports (record {
      said = command_or_refusal (map (λ w. w.now) words.now);
      held = F.held files.old;
      after = F.held files.new;
      before = F.counts files.old;
      now = F.counts files.new;
      sent = O.sent out.old;
      sent_after = O.sent out.new;
      faults = O.faults out.old;
      faults_after = O.faults out.new;
    }) result }
    ensures headline { IsMigrated (record {
      said = command_or_refusal (map (λ w. w.now) words.now);
      held = F.held files.old;
      after = F.held files.new;
      before = F.counts files.old;
      now = F.counts files.new;
      sent = O.sent out.old;
      sent_after = O.sent out.new;
      faults = O.faults out.old;
      faults_after = O.faults out.new;
    }) result }
{
    match read_words(alloc, words) {
        Ok(command) => perform(alloc, files, out, &command),
        Err(e) => tell(alloc, out, e, &[]),
    }
}
