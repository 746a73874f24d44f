ghost use Rattle.std.specs.Prelude.{◌≡◌, ℕ, List, Option, IfOk};
ghost use Rattle.palmig_top.specs.Preparing.{outcome_in};
ghost use Rattle.palmig_top.specs.Steps.{IsEnd};
ghost use Rattle.palmig_top.specs.Concluding.{Finished, Concludes};

use crate::prepared::Prepared;
use crate::saves::save_all;
use crate::telling::{put_text, tell};
use answers::Exit;
use mig_io::{Files, Sink};
use std::alloc::Global;

/// Saves what was prepared, and puts the report.
fn finish<F: Files, O: Sink>(alloc: Global, files: &mut F, out: &mut O, prepared: Prepared) -> Exit
    requires { IsEnd (outcome_in prepared) }
    ensures { Finished (outcome_in prepared) (F.held files.old) (F.held files.new) (F.counts files.old) (F.counts files.new)
        (record { sent = O.sent out.old; after = O.sent out.new; faults = O.faults out.old; faults_after = O.faults out.new }) result }
{
    match save_all(alloc, files, prepared.saves.items()) {
        Ok(()) => put_text(alloc, out, prepared.answer, &prepared.report),
        Err(e) => tell(alloc, out, e, &[]),
    }
}

/// Ends a command: saves what was prepared and puts its report, or puts why it was not.
pub fn conclude<F: Files, O: Sink>(
    alloc: Global,
    files: &mut F,
    out: &mut O,
    prepared: Result<Prepared, Exit>,
) -> Exit
    requires { IfOk prepared (λ p. IsEnd (outcome_in p)) }
    ensures { Concludes prepared (F.held files.old) (F.held files.new) (F.counts files.old) (F.counts files.new)
        (record { sent = O.sent out.old; after = O.sent out.new; faults = O.faults out.old; faults_after = O.faults out.new }) result }
{
    match prepared {
        Ok(prepared) => finish(alloc, files, out, prepared),
        Err(e) => tell(alloc, out, e, &[]),
    }
}
