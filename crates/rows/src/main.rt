//! Runs a list of calls over files in memory, and prints each line of the list with what it gives.
//!
//! The lines are read from the standard input:
//!
//! | Line | What it does |
//! |-|-|
//! | `palmig WORDS` | runs a call of these words; prints its report, its status, and the files that it saved |
//! | `file NAME ..` | holds files as they lie on the disk |
//! | `text NAME TEXT` | holds a text |
//! | `repeat NAME HEAD PIECE COUNT TAIL` | holds a text with so many pieces; `%` in the piece is its number, from 0 |
//! | `copy NAME OTHER` | holds the same bytes under another name |
//! | `drop NAME ..` | holds files no longer |
//! | `change NAME PART OTHER` | in the next call, the file has the other part in place of the first one of this spelling |
//! | `bad load N`, `bad save N`, `bad put N` | in the next call, the load, save or put of this number fails |
//! | `print NAME ..` | prints files |
//! | `same NAME OTHER` | prints whether two files have the same bytes, or each file of a stem those of the other's |
//! | `disk save NAME`, `disk load NAME MOST` | saves a file to the disk, loads one, and prints what came of it |
//! | `disk folder NAME`, `disk lock NAME`, `disk remove NAME` | makes a folder, takes a file's rights away, removes a file |
//!
//! Words stand between blanks, or between quotes with `\n`, `\r`, `\t`, `\"`, `\\` and `\x` with two digits. Empty lines and
//! lines that begin with `#` are printed alone. A line that can't be carried out is an error, and then the status is 1.
#![tactic(auto)]

mod calls;
mod commands;
mod desk;
mod disk;
mod faults;
mod held;
mod making;
mod telling;
#[cfg(test)]
mod tests;
mod watched;
mod wording;

use commands::answer;
use desk::Desk;
use faults::Fault;
use mig_io::{OutSink, Sink};
use std::alloc::Global;
use std::process::ExitCode;

/// Puts a line and what it gives. The answer is whether it was carried out.
fn put_line<O: Sink>(
    rt: &HostRuntime,
    alloc: Global,
    desk: &mut Desk,
    out: &mut O,
    line: &str,
) -> Result<bool, Fault> {
    out.put(alloc, line.as_bytes())?;
    out.put(alloc, b"\n")?;
    match answer(rt, alloc, desk, line) {
        Ok(text) => {
            out.put(alloc, text.as_bytes())?;
            Ok(true)
        }
        Err(fault) => {
            out.put(alloc, b"error: ")?;
            out.put(alloc, fault.text().as_bytes())?;
            out.put(alloc, b"\n")?;
            Ok(false)
        }
    }
}

/// Puts each line of the input and what it gives. The answer is whether all were carried out.
fn put_lines(rt: &HostRuntime) -> Result<bool, Fault> {
    let alloc = rt.alloc();
    let mut desk = Desk::new(alloc);
    let mut out = OutSink::new(rt);
    let mut is_right = true;
    for line in rt.lines(alloc) {
        let line = line?;
        if !put_line(rt, alloc, &mut desk, &mut out, line.as_str())? {
            is_right = false;
        }
    }
    Ok(is_right)
}

fn main(rt: HostRuntime) -> ExitCode {
    match put_lines(&rt) {
        Ok(true) => ExitCode::SUCCESS,
        _ => ExitCode::FAILURE,
    }
}
