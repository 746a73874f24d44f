ghost use Rattle.std.specs.Prelude.{◌≡◌, ◌+◌, ◌*◌, ◌++◌, ◌<◌, ◌≤◌, length, map, sum, IsTrue, OnOk};
ghost use Rattle.std.specs.List.{flat_map, list_any};
ghost use Rattle.mig_base.specs.DeviceTables.{array_width, has_count};
ghost use Rattle.mig_base.specs.WrittenFuses.{state_digit, listing_line, written_line, lines_of_group, group_lines, groups_by, written_groups, array_rows, tail_sizes};

use crate::digits::decimal;
use mig_base::{Kind, NoMemory};
use std::alloc::Global;

/// The rows of the array of a kind, and the fuses of a row.
fn array_of(kind: Kind) -> (usize, usize)
    ensures rows { result.0 ≡ array_rows kind }
    ensures width { result.1 ≡ array_width kind }
{
    match kind {
        Kind::Gal22V10 | Kind::Gal22V10Q => (132, 44),
        Kind::Pal16L8 | Kind::Pal16R4 | Kind::Pal16R6 | Kind::Pal16R8 | Kind::Gal16V8 => (64, 32),
        _ => (64, 40),
    }
}

/// The sizes of the groups of fuses behind the array. V8: XOR, signature, AC1, term disable, SYN, AC0;
/// 22V10: S0 and S1 of the cells, and the signature where there is one.
fn tail_of(kind: Kind, count: usize) -> &'static [usize]
    ensures { result.now ≡ tail_sizes kind count }
{
    match kind {
        Kind::Gal16V8 | Kind::Gal20V8 => &[8, 64, 8, 64, 1, 1],
        Kind::Gal22V10 | Kind::Gal22V10Q => { if count == 5892 { &[20, 64] } else { &[20] } }
        _ => &[],
    }
}

/// Whether one of the fuses is 1.
fn has_one(states: &[bool]) -> bool
    ensures { result ≡ list_any (λ s. s) states.now }
{
    states.iter().any(|s| *s)
}

/// Adds the digits of these fuses.
fn push_states(text: &mut Vec<u8>, states: &[bool]) -> Result<(), NoMemory>
    ensures { OnOk result (text.new.items ≡ text.old.items ++ map state_digit states.now) }
{
    for state in states {
        text.push(if *state { b'1' } else { b'0' })?;
    }
    Ok(())
}

/// Adds the line of the fuses from `first` on.
fn push_listing(text: &mut Vec<u8>, first: usize, states: &[bool]) -> Result<(), NoMemory>
    ensures { OnOk result (text.new.items ≡ text.old.items ++ written_line (listing_line first states.now)) }
{
    text.push(b'L')?;
    text.extend_from_slice(&decimal(first))?;
    text.push(b' ')?;
    push_states(text, states)?;
    text.extend_from_slice(b"*\n")?;
    Ok(())
}

/// Adds the line of a group of fuses from `first` on: always, or where one of them is 1.
fn push_group(
    text: &mut Vec<u8>,
    first: usize,
    states: &[bool],
    always: bool,
) -> Result<(), NoMemory>
    ensures { OnOk result (text.new.items ≡ text.old.items ++ flat_map written_line (lines_of_group first (record { always = always; states = states.now }))) }
{
    if always || has_one(states) {
        push_listing(text, first, states)?;
    }
    Ok(())
}

/// Adds the lines of groups of these sizes, of which the first begins at the fuse `first`.
fn push_groups(
    text: &mut Vec<u8>,
    first: usize,
    states: &[bool],
    sizes: &[usize],
    always: bool,
) -> Result<(), NoMemory>
    requires whole { sum sizes.now ≤ length states.now }
    requires few { first + length states.now < 10000 }
    ensures { OnOk result (text.new.items ≡ text.old.items ++ flat_map written_line (group_lines first (groups_by always sizes.now states.now))) }
{
    let mut at = 0;
    for size in sizes {
        push_group(text, first + at, &states[at..at + *size], always)?;
        at += *size;
    }
    Ok(())
}

/// Adds the lines of the fuses of a chip: each row of the array that holds a 1, and the groups behind the array.
pub fn push_fuses(
    alloc: Global,
    text: &mut Vec<u8>,
    kind: Kind,
    states: &[bool],
) -> Result<(), NoMemory>
    requires { IsTrue (has_count kind (length states.now)) }
    ensures { OnOk result (text.new.items ≡ text.old.items ++ flat_map written_line (group_lines 0 (written_groups kind states.now))) }
{
    let (rows, width) = array_of(kind);
    let (array, behind) = states.split_at(rows * width);
    let sizes = vec![in alloc; width; rows]?;
    push_groups(text, 0, array, sizes.as_slice(), false)?;
    push_groups(
        text,
        rows * width,
        behind,
        tail_of(kind, states.len()),
        true,
    )?;
    Ok(())
}
