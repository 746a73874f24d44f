use crate::desk::Desk;
use crate::faults::Fault;
use crate::held::name_of;
use std::alloc::{AllocError, Global};

/// Holds a text.
pub fn hold_text(alloc: Global, desk: &mut Desk, name: &str, text: &str) -> Result<(), Fault> {
    let bytes = Vec::from_slice(alloc, text.as_bytes())?;
    desk.held.put(name_of(alloc, name)?, bytes)?;
    Ok(())
}

/// So many pieces, each with its number in place of a `%`.
fn numbered(alloc: Global, before: &str, after: &str, count: u32) -> Result<String, AllocError> {
    let mut text = String::new(alloc);
    for number in 0..count {
        write!(text, "{before}{number}{after}")?;
    }
    Ok(text)
}

/// So many pieces.
fn pieces(alloc: Global, piece: &str, count: u32) -> Result<String, AllocError> {
    match piece.split_once('%') {
        Some((before, after)) => numbered(alloc, before, after, count),
        None => piece.repeat(alloc, count as usize),
    }
}

/// Holds a text of a head, so many pieces and a tail.
pub fn hold_pieces(
    alloc: Global,
    desk: &mut Desk,
    name: &str,
    head: &str,
    piece: &str,
    count: &str,
    tail: &str,
) -> Result<(), Fault> {
    let Ok(count) = count.parse::<u32>() else {
        return Err(Fault::Command);
    };
    let mut text = String::from_str(alloc, head)?;
    text.push_str(pieces(alloc, piece, count)?.as_str())?;
    text.push_str(tail)?;
    hold_text(alloc, desk, name, text.as_str())
}

/// Holds the bytes of a file under another name too.
pub fn hold_copy(alloc: Global, desk: &mut Desk, name: &str, other: &str) -> Result<(), Fault> {
    let bytes = Vec::from_slice(alloc, desk.bytes_of(name)?)?;
    desk.held.put(name_of(alloc, other)?, bytes)?;
    Ok(())
}

/// Changes the first part of this spelling in a file, for the next call.
///
/// # Errors
/// `NoPart` where there is none.
pub fn change(
    alloc: Global,
    desk: &mut Desk,
    name: &str,
    part: &str,
    other: &str,
) -> Result<(), Fault> {
    let Ok(text) = std::str::from_utf8(desk.next_bytes_of(name)?) else {
        return Err(Fault::NoPart);
    };
    let Some((before, after)) = text.split_once(part) else {
        return Err(Fault::NoPart);
    };
    let text = format!(in alloc; "{before}{other}{after}")?;
    desk.next
        .changed
        .put(name_of(alloc, name)?, text.into_bytes())?;
    Ok(())
}

/// Lets the load, the save or the put of this number fail in the next call.
pub fn set_bad(desk: &mut Desk, which: &str, number: &str) -> Result<(), Fault> {
    let Ok(number) = number.parse::<u32>() else {
        return Err(Fault::Command);
    };
    match which {
        "load" => desk.next.bad_load = number,
        "save" => desk.next.bad_save = number,
        "put" => desk.next.bad_put = number,
        _ => return Err(Fault::Command),
    }
    Ok(())
}
