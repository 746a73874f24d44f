ghost use Rattle.std.specs.Prelude.{◌≡◌, ◌+◌, ◌∷◌, ◌++◌, length, codes, IsTrue, IfOk, OnOk};
ghost use Rattle.std.specs.List.{flat_map};
ghost use Rattle.mig_base.specs.DeviceTables.{has_count};
ghost use Rattle.mig_base.specs.FuseText.{fuse_sum as sum_of_fuses};
ghost use Rattle.mig_base.specs.WrittenFuses.{four_digits, four_hex, written_line, design_of, pins_digits, written_groups, written_body, written_fuses, head_lines};

use crate::digits::{decimal, hex};
use crate::groups::push_fuses;
use crate::sums::{byte_sum, fuse_sum};
use mig_base::{Fuses, Kind, NoMemory, kind_text, pins};
use std::alloc::Global;

/// Start and end of a transmission.
const STX: u8 = 0x02;

const ETX: u8 = 0x03;

/// Adds the lines before the fuses: design, pins, number of fuses, no security fuse, unlisted fuses 0.
fn push_head(text: &mut Vec<u8>, kind: Kind, count: usize) -> Result<(), NoMemory>
    ensures { OnOk result (text.new.items ≡ text.old.items ++ flat_map written_line (head_lines (design_of kind) (pins_digits kind) count)) }
{
    text.extend_from_slice(b"palmig ")?;
    text.extend_from_slice(kind_text(kind).as_bytes())?;
    text.extend_from_slice(b"*\nQP")?;
    text.extend_from_slice(if pins(kind) == 20 { b"20" } else { b"24" })?;
    text.extend_from_slice(b"*\nQF")?;
    text.extend_from_slice(&decimal(count))?;
    text.extend_from_slice(b"*\nG0*\nF0*\n")?;
    Ok(())
}

/// Adds the line of the fuse sum.
fn push_fuse_sum(text: &mut Vec<u8>, states: &[bool]) -> Result<(), NoMemory>
    ensures { OnOk result (text.new.items ≡ text.old.items ++ written_line (67 ∷ four_hex (sum_of_fuses states.now))) }
{
    text.push(b'C')?;
    text.extend_from_slice(&hex(fuse_sum(states)))?;
    text.extend_from_slice(b"*\n")?;
    Ok(())
}

/// Adds what stands between STX and ETX.
fn push_body(alloc: Global, text: &mut Vec<u8>, kind: Kind, states: &[bool]) -> Result<(), NoMemory>
    requires { IsTrue (has_count kind (length states.now)) }
    ensures { OnOk result (text.new.items ≡ text.old.items ++ written_body (design_of kind) (pins_digits kind) (written_groups kind states.now)) }
{
    push_head(text, kind, states.len())?;
    push_fuses(alloc, text, kind, states)?;
    push_fuse_sum(text, states)?;
    Ok(())
}

/// The fuse text of a chip of this kind with these fuses.
///
/// # Errors
/// `NoMemory` alone.
pub fn jed_bytes(alloc: Global, kind: Kind, fuses: &Fuses) -> Result<Vec<u8>, NoMemory>
    requires { IsTrue (has_count kind (length fuses.now.bits)) }
    ensures { IfOk result (λ text. text.items ≡ written_fuses kind fuses.now.bits) }
{
    let mut text = Vec::new(alloc);
    text.push(STX)?;
    push_body(alloc, &mut text, kind, fuses.bits.items())?;
    text.push(ETX)?;
    let sum = byte_sum(text.as_slice());
    text.extend_from_slice(&hex(sum))?;
    text.push(b'\n')?;
    Ok(text)
}
