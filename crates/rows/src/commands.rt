use crate::calls::call;
use crate::desk::Desk;
use crate::disk::{hold_file, on_disk};
use crate::faults::Fault;
use crate::making::{change, hold_copy, hold_pieces, hold_text, set_bad};
use crate::telling::write_shown;
use crate::wording::words_of;
use std::alloc::Global;

/// Holds files as they lie on the disk.
fn hold_files(
    rt: &HostRuntime,
    alloc: Global,
    desk: &mut Desk,
    names: &[&str],
) -> Result<String, Fault> {
    for name in names {
        hold_file(rt, alloc, desk, name)?;
    }
    Ok(String::new(alloc))
}

/// Holds these files no longer.
fn drop_files(alloc: Global, desk: &mut Desk, names: &[&str]) -> Result<String, Fault> {
    for name in names {
        desk.bytes_of(name)?;
        desk.held.remove(name);
    }
    Ok(String::new(alloc))
}

/// The files, one behind another.
fn printed(alloc: Global, desk: &Desk, names: &[&str]) -> Result<String, Fault> {
    let mut text = String::new(alloc);
    for name in names {
        write_shown(&mut text, desk.bytes_of(name)?)?;
    }
    Ok(text)
}

/// Whether two files, or all files under two stems, have the same bytes.
fn compared(alloc: Global, desk: &Desk, name: &str, other: &str) -> Result<String, Fault> {
    let told = match desk.held.is_same(alloc, name, other)? {
        Some(true) => "same\n",
        Some(false) => "other\n",
        None => return Err(Fault::NotHeld),
    };
    Ok(String::from_str(alloc, told)?)
}

/// Carries out a command that says nothing.
fn set(alloc: Global, desk: &mut Desk, verb: &str, words: &[&str]) -> Result<String, Fault> {
    match (verb, words) {
        ("text", [name, text]) => hold_text(alloc, desk, name, text)?,
        ("copy", [name, other]) => hold_copy(alloc, desk, name, other)?,
        ("bad", [which, number]) => set_bad(desk, which, number)?,
        ("change", [name, part, other]) => change(alloc, desk, name, part, other)?,
        ("repeat", [name, head, piece, count, tail]) => {
            hold_pieces(alloc, desk, name, head, piece, count, tail)?;
        }
        _ => return Err(Fault::Command),
    }
    Ok(String::new(alloc))
}

/// Carries out a command, and gives what it says.
fn perform(
    rt: &HostRuntime,
    alloc: Global,
    desk: &mut Desk,
    words: &[&str],
) -> Result<String, Fault> {
    let Some((verb, rest)) = words.split_first() else {
        return Ok(String::new(alloc));
    };
    match (*verb, rest) {
        ("palmig", _) => call(alloc, desk, rest),
        ("file", _) => hold_files(rt, alloc, desk, rest),
        ("drop", _) => drop_files(alloc, desk, rest),
        ("print", _) => printed(alloc, desk, rest),
        ("same", [name, other]) => compared(alloc, desk, name, other),
        ("disk", _) => on_disk(rt, alloc, desk, rest),
        _ => set(alloc, desk, verb, rest),
    }
}

/// What a line of the list says.
pub fn answer(
    rt: &HostRuntime,
    alloc: Global,
    desk: &mut Desk,
    line: &str,
) -> Result<String, Fault> {
    if line.starts_with('#') {
        return Ok(String::new(alloc));
    }
    let words = words_of(alloc, line)?;
    let texts = words
        .iter()
        .map(|word| word.as_str())
        .collect::<Vec<&str>>(alloc)?;
    perform(rt, alloc, desk, texts.as_slice())
}
