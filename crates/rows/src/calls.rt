use crate::desk::{Desk, Next};
use crate::faults::Fault;
use crate::held::Held;
use crate::telling::write_report;
use crate::watched::Watched;
use mig_base::FileName;
use mig_io::{Files, FirmFiles, FirmSink, MemFiles, MemSink, Sink};
use palmig_top::{run, status};
use std::alloc::{AllocError, Global};

/// The number of the one call that fails.
fn only(alloc: Global, number: u32) -> Result<Vec<u32>, AllocError> {
    Ok(vec![in alloc; number]?)
}

/// What is told of a call: its report, its status, and what it saved.
fn told(alloc: Global, report: &[u8], code: u8, saved: &Held) -> Result<String, AllocError> {
    let mut text = String::new(alloc);
    write_report(alloc, &mut text, report)?;
    writeln!(text, "status {code}")?;
    saved.write_names(&mut text, "saved")?;
    Ok(text)
}

/// Runs a call over these files and this sink. The answer is its status and what it saved.
fn run_over<F: Files + Drop, O: Sink>(
    alloc: Global,
    words: &[&str],
    files: F,
    out: &mut O,
) -> (u8, Held) {
    let mut files = Watched::new(alloc, files);
    let exit = run(alloc, words, &mut files, out);
    (status(&exit), files.into_saved())
}

/// Runs a call of which no load, save or put fails.
fn call_firmly(
    alloc: Global,
    words: &[&str],
    held: Vec<(FileName, Vec<u8>)>,
) -> Result<(String, Held), Fault> {
    let mut out = FirmSink::new(alloc);
    let (code, saved) = run_over(alloc, words, FirmFiles::new(held), &mut out);
    Ok((told(alloc, out.sent(), code, &saved)?, saved))
}

/// Runs a call of which a load, a save or a put may fail.
fn call_badly(
    alloc: Global,
    words: &[&str],
    held: Vec<(FileName, Vec<u8>)>,
    next: &Next,
) -> Result<(String, Held), Fault> {
    let bad_loads = only(alloc, next.bad_load)?;
    let bad_saves = only(alloc, next.bad_save)?;
    let mut out = MemSink::new(alloc, only(alloc, next.bad_put)?);
    let files = MemFiles::new(held, bad_loads, bad_saves);
    let (code, saved) = run_over(alloc, words, files, &mut out);
    Ok((told(alloc, out.sent(), code, &saved)?, saved))
}

/// Runs a call of these words over the held files. What it saves is held from then on.
pub fn call(alloc: Global, desk: &mut Desk, words: &[&str]) -> Result<String, Fault> {
    let next = desk.take_next(alloc);
    let held = desk.held.changed_by(alloc, &next.changed)?;
    let (text, saved) = if next.is_bad() {
        call_badly(alloc, words, held, &next)?
    } else {
        call_firmly(alloc, words, held)?
    };
    desk.held.put_all(saved)?;
    Ok(text)
}
