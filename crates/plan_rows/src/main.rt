//! Holds plans against boards, and prints each line of a list with what it gives.
//!
//! The lines are read from the standard input:
//!
//! | Line | What it prints |
//! |-|-|
//! | `breach BOARD PLAN` | the breach of the plan with what it names, or `none` |
//! | `fit BOARD PLAN` | the new chips, each with its name, the listing of its cells and its wired pins; or the breach |
//!
//! BOARD stands for the file `BOARD.net` and a file `BOARD.CHIP.jed` for each chip, PLAN for the file `PLAN.plan`. Empty lines and
//! lines that begin with `#` are printed alone. The run ends at a line that can't be carried out, and then the status is 1.
#![tactic(auto)]

mod breaches;
mod chips;
mod faults;
mod holding;
mod loads;

use faults::Fault;
use holding::held;
use std::process::ExitCode;

/// What a line of the list says.
fn answer(rt: &HostRuntime, line: &str) -> Result<String, Fault> {
    let alloc = rt.alloc();
    let words = line.split_whitespace().collect::<Vec<&str>>(alloc)?;
    match words.as_slice() {
        [] | ["#", ..] => Ok(String::new(alloc)),
        ["breach", board, plan] => held(rt, board, plan, false),
        ["fit", board, plan] => held(rt, board, plan, true),
        _ => Err(Fault::Words),
    }
}

/// Prints each line of the input and what it gives.
fn print_lines(rt: &HostRuntime) -> Result<(), Fault> {
    for line in rt.lines(rt.alloc()) {
        let line = line?;
        println!(rt; "{line}")?;
        let text = answer(rt, line.as_str())?;
        print!(rt; "{text}")?;
    }
    Ok(())
}

fn main(rt: HostRuntime) -> ExitCode {
    match print_lines(&rt) {
        Ok(()) => ExitCode::SUCCESS,
        Err(_) => ExitCode::FAILURE,
    }
}
