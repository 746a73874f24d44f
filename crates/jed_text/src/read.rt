ghost use Rattle.std.specs.Prelude.{◌≡◌, IfOk};
ghost use Rattle.mig_base.specs.FuseText as spec;
ghost use Rattle.jed_text.specs.Bodies.{field_said};
ghost use Rattle.jed_text.specs.ReadAnswer.{IsAnswer};
ghost use Rattle.jed_text.specs.Transmissions.{IsSent, written_fields, fields_of_text};

use crate::body::Body;
use crate::cut::{cut_at, skip_blanks};
use crate::field::FieldText;
use crate::fuses::fuses_in;
use crate::numbers::{Base, number_of_four};
use jed_write::byte_sum;
use mig_base::{Field, Fuses, Items, JedError, NoMemory};
use std::alloc::{AllocError, Global};

/// The start of a transmission.
const STX: u8 = 0x02;

/// The end of a transmission.
const ETX: u8 = 0x03;

/// Why what follows ETX is refused, where the transmission has this sum. A said sum of 0000 stands for none.
fn tail_refusal(found: u16, tail: &[u8]) -> Option<JedError>
    ensures { result ≡ spec.tail_refusal found (spec.skip_blanks tail.now) }
{
    let text = skip_blanks(tail);
    if text.is_empty() {
        return None;
    }
    let Some(number) = number_of_four(Base::Hexadecimal, text) else {
        return Some(JedError::BadTail);
    };
    let said = number as u16;
    if said == 0 || said == found {
        None
    } else {
        Some(JedError::BadSum { said, found })
    }
}

/// What a fuse text sends: what stands between STX and ETX, and what follows ETX.
#[derive(Clone, Copy)]
pub struct Transmission<'a> {
    body: Body<'a>,
    tail: &'a [u8],
}

/// What a fuse text sends, from the first STX to the first ETX behind it.
fn sent_in(bytes: &[u8]) -> Result<Transmission<'_>, JedError>
    ensures { IsSent bytes.now result }
{
    let Some((before, begun)) = cut_at(STX, bytes) else {
        return Err(JedError::NoStx);
    };
    let Some((text, tail)) = cut_at(ETX, begun) else {
        return Err(JedError::NoEtx);
    };
    let at = before.len() + 1;
    Ok(Transmission {
        body: Body { at, text },
        tail,
    })
}

/// The fuses of a transmission.
fn fuses_sent(alloc: Global, sent: Transmission) -> Result<Fuses, JedError>
    ensures { IsAnswer result (spec.fuses_between sent.entry.body.at sent.entry.body.text.now sent.entry.tail.now) }
{
    let found = byte_sum(sent.body.text).wrapping_add(u16::from(STX + ETX));
    if let Some(refusal) = tail_refusal(found, sent.tail) {
        return Err(refusal);
    }
    fuses_in(alloc, sent.body)
}

/// The fuses of a fuse text (JESD3-C, in the profile of docs/fuse_text.md), or the first refusal.
///
/// Takes memory in proportion to the fuses, and time in proportion to the bytes.
///
/// # Errors
/// The first refusal in the order of `JedError`, each with its place; `Memory`.
pub fn read_jed(alloc: Global, bytes: &[u8]) -> Result<Fuses, JedError>
    ensures { IsAnswer result (spec.fuses_of_text bytes.now) }
{
    fuses_sent(alloc, sent_in(bytes)?)
}

/// A copy of a field.
fn field_copy(alloc: Global, field: FieldText) -> Result<Field, AllocError>
    ensures { IfOk result (λ f. f ≡ field_said field.entry) }
{
    let text = Vec::from_slice(alloc, field.text)?;
    Ok(Field {
        at: field.at,
        text: Items::new(text),
    })
}

/// The fields of a body, without those of blanks alone.
fn written_fields_of(alloc: Global, body: Body) -> Result<Vec<Field>, NoMemory>
    ensures { IfOk result (λ fields. fields.items ≡ written_fields body.entry.at body.entry.text.now) }
{
    let mut fields = Vec::new(alloc);
    for field in body.fields() {
        if !field.text.is_empty() {
            fields.push(field_copy(alloc, field)?)?;
        }
    }
    Ok(fields)
}

/// The fields of a fuse text in the order of the file, without those of blanks alone.
///
/// Each has its text from the identifier on, without the asterisk, and the place of the identifier in the file. A text
/// without STX, or without ETX behind it, has none.
///
/// # Errors
/// Want of memory.
pub fn fields(alloc: Global, bytes: &[u8]) -> Result<Vec<Field>, NoMemory>
    ensures { IfOk result (λ fields. fields.items ≡ fields_of_text bytes.now) }
{
    match sent_in(bytes) {
        Ok(sent) => written_fields_of(alloc, sent.body),
        Err(_) => Ok(Vec::new(alloc)),
    }
}
