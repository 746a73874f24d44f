ghost use Rattle.std.specs.Prelude.{◌≡◌, ◌≢◌, ℕ, List, Option};
ghost use Rattle.answers.specs.Exits.{class_of};
ghost use Rattle.answers.specs.Exits.Class.{Wanting};
ghost use Rattle.answers.specs.Reports.{answer_report};
ghost use Rattle.palmig_top.specs.Concluding.{Puts};

use answers::{Exit, report};
use mig_base::NetLine;
use mig_io::{PutError, Sink};
use std::alloc::Global;

/// Puts the text of an answer.
pub fn put_text<O: Sink>(alloc: Global, out: &mut O, answer: Exit, text: &[u8]) -> Exit
    requires { class_of answer ≢ Wanting }
    ensures { Puts answer text.now (record { sent = O.sent out.old; after = O.sent out.new; faults = O.faults out.old; faults_after = O.faults out.new }) result }
{
    match out.put(alloc, text) {
        Ok(()) => answer,
        Err(PutError::Failed) => Exit::OutFault,
        Err(PutError::Memory) => Exit::Memory,
    }
}

/// Puts the report of an answer, told with these named nets.
pub fn tell<O: Sink>(alloc: Global, out: &mut O, answer: Exit, nets: &[NetLine]) -> Exit
    ensures { Puts answer (answer_report nets.now answer) (record { sent = O.sent out.old; after = O.sent out.new; faults = O.faults out.old; faults_after = O.faults out.new }) result }
{
    if let Exit::Memory = answer {
        return Exit::Memory;
    }
    let Ok(text) = report(alloc, &answer, nets) else {
        return Exit::Memory;
    };
    put_text(alloc, out, answer, &text)
}
