//! Moves boards of PAL chips onto GAL chips: the words of the command line, the system's files, the standard output.
#![tactic(auto)]

use mig_io::{DiskFiles, OutSink};
use palmig_top::{run, status};
use std::io::ErrorKind;
use std::process::ExitCode;
use std::{env, io};

/// The status where there is no memory for the words.
const NO_MEMORY: u8 = 10;

/// The status where the words can't be had for another cause.
const NO_WORDS: u8 = 12;

/// The words of a call, without the program's own name.
fn words_of(rt: &HostRuntime) -> io::Result<Vec<String>> {
    let words = env::args(rt)?.skip(1).collect(rt.alloc())?;
    Ok(words)
}

/// The status of a call whose words can't be had.
fn status_without_words(error: &io::Error) -> u8 {
    if error.kind() == ErrorKind::OutOfMemory {
        NO_MEMORY
    } else {
        NO_WORDS
    }
}

/// Runs the command of the arguments over the system's files, and gives its status.
fn call(rt: &HostRuntime) -> u8 {
    let alloc = rt.alloc();
    let words = match words_of(rt) {
        Ok(words) => words,
        Err(error) => return status_without_words(&error),
    };
    let Ok(texts) = words
        .iter()
        .map(|word| word.as_str())
        .collect::<Vec<&str>>(alloc)
    else {
        return NO_MEMORY;
    };
    let mut files = DiskFiles::new(rt);
    let mut out = OutSink::new(rt);
    status(&run(alloc, &texts, &mut files, &mut out))
}

fn main(rt: HostRuntime) -> ExitCode {
    ExitCode::from(call(&rt))
}
