ghost use Rattle.std.specs.Prelude.{◌≡◌, ◌+◌, ◌<◌, ◌^◌, ◌∷◌, [], length};
ghost use Rattle.mig_base.specs.FuseText as spec;

use crate::cut::{all_blank, cut_at};
use crate::field::{FieldText, field_of, place_of_text};

/// What stands between STX and ETX, and its place in the file.
#[derive(Clone, Copy)]
pub struct Body<'a> {
    pub at: usize,
    pub text: &'a [u8],
    pub ghost fits: { at + length text.now < 2 ^ 64 },
}

/// The fields that are left of a body: the text behind the asterisks that were passed, and its place in the file.
#[derive(Drop)]
pub struct Fields<'a> {
    at: usize,
    rest: &'a [u8],
    pub ghost fits: { at + length rest.now < 2 ^ 64 },
}

/// Where something stands in what follows the last asterisk, if it is not blank.
fn loose_in(at: usize, last: &[u8]) -> Option<usize>
    requires { at + length last.now < 2 ^ 64 }
    ensures { result ≡ spec.loose_from at (last.now ∷ []) }
{
    if all_blank(last) {
        None
    } else {
        Some(place_of_text(at, last))
    }
}

/// Where something stands loose behind the last asterisk, in a text that begins at this place.
fn loose_from(start: usize, text: &[u8]) -> Option<usize>
    requires { start + length text.now < 2 ^ 64 }
    ensures { result ≡ spec.loose_from start (spec.pieces text.now) }
{
    let mut at = start;
    let mut rest = text;
    while let Some((piece, after)) = cut_at(b'*', rest) {
        at += piece.len() + 1;
        rest = after;
    }
    loose_in(at, rest)
}

impl<'a> Body<'a> {
    ghost use Rattle.jed_text.specs.Bodies.{fields_left};

    /// The fields: all pieces between asterisks but the first, which is the design specification.
    pub fn fields(self) -> Fields<'a>
        ensures { fields_left result ≡ spec.fields_of self.entry.at (spec.pieces self.entry.text.now) }
    {
        let Some((design, rest)) = cut_at(b'*', self.text) else {
            return Fields {
                at: self.at,
                rest: &[],
            };
        };
        Fields {
            at: self.at + design.len() + 1,
            rest,
        }
    }

    /// Where something stands loose behind the last asterisk; a body without an asterisk is loose from its first byte on.
    pub fn loose(self) -> Option<usize>
        ensures { result ≡ spec.loose_of self.entry.at (spec.pieces self.entry.text.now) }
    {
        match cut_at(b'*', self.text) {
            Some((design, rest)) => loose_from(self.at + design.len() + 1, rest),
            None => Some(self.at),
        }
    }
}

impl<'a> Iterator for Fields<'a> {
    ghost use Rattle.std.specs.Iterator.{YieldsFirstBy, item_count};
    ghost use Rattle.jed_text.specs.Bodies.{field_said, fields_left};

    type Item = FieldText<'a>;

    ghost next_gives = { YieldsFirstBy field_said fields_left };

    ghost remaining = { item_count fields_left };

    fn next(&mut self) -> Option<FieldText<'a>> {
        let (piece, after) = cut_at(b'*', self.rest)?;
        let field = field_of(self.at, piece);
        self.at += piece.len() + 1;
        self.rest = after;
        Some(field)
    }
}
