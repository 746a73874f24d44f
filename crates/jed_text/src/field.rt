ghost use Rattle.std.specs.Prelude.{◌≡◌, ◌+◌, ◌<◌, ◌^◌, length};
ghost use Rattle.mig_base.specs.FuseText as spec;
ghost use Rattle.jed_text.specs.Bodies.{field_said};
ghost use Rattle.jed_text.specs.Sayings.{said_of};

use crate::cut::skip_blanks;
use crate::said::{Said, said_by};

/// A field: its text from the identifier on, and the place of the identifier.
#[derive(Clone, Copy)]
pub struct FieldText<'a> {
    pub at: usize,
    pub text: &'a [u8],
}

/// The place of the first byte that is no blank, in a text that begins at this place.
pub fn place_of_text(at: usize, text: &[u8]) -> usize
    requires { at + length text.now < 2 ^ 64 }
    ensures { result ≡ spec.place_of_text at text.now }
{
    at + (text.len() - skip_blanks(text).len())
}

/// The field of a piece that begins at this place.
pub fn field_of(at: usize, piece: &[u8]) -> FieldText<'_>
    requires { at + length piece.now < 2 ^ 64 }
    ensures { field_said result ≡ spec.field_of at piece.now }
{
    FieldText {
        at: place_of_text(at, piece),
        text: skip_blanks(piece),
    }
}

impl<'a> FieldText<'a> {
    /// What the field says.
    pub fn said(self) -> Said<'a>
        ensures { said_of result ≡ spec.said_by self.entry.text.now }
    {
        said_by(self.text)
    }
}
