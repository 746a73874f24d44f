ghost use Rattle.std.specs.Prelude.{◌≡◌, take, IsTrue, Some, None};
ghost use Rattle.mig_base.specs.Names.{is_name, is_name_byte, name_of};
ghost use Rattle.std.specs.List.{list_all};

use std::marker::Model;

/// The most bytes of a name.
const MOST: usize = 24;

/// A name of 1 to 24 letters, digits, underscores and dashes, held in the value itself. Contracts see its bytes.
#[derive(Clone, Copy, PartialEq, Eq)]
pub struct Name {
    bytes: [u8; 24],
    len: usize,
}

impl Model for Name {
    ghost use Rattle.std.specs.Prelude.{List, ℕ, take, ◌++◌, ◌-◌, length, replicate};
    ghost use Rattle.mig_base.specs.Names.{IsPadded, IsPadded-inverse};

    ghost Value = { List ℕ };

    ghost view = { λ n. take n.len n.bytes };

    ghost invariant = { λ n. IsPadded n.bytes n.len };

    ghost inverse = { λ text. record { bytes = text ++ replicate (24 - length text) 0; len = length text } };

    ghost inverse_ok = { λ n h i. record { bytes = (IsPadded-inverse n.bytes n.len h).0 i; len = (IsPadded-inverse n.bytes n.len h).1 i } };
}

impl Name {
    /// The name of this spelling. `None` exactly where the text is none.
    pub fn new(text: &[u8]) -> Option<Name>
        ensures { result ≡ name_of text.now }
    {
        if text.is_empty() || text.len() > MOST || !all_name_bytes(text) {
            return None;
        }
        let mut bytes = [0; 24];
        bytes[..text.len()].copy_from_slice(text);
        Some(Name {
            bytes,
            len: text.len(),
        })
    }

    /// The bytes.
    pub fn bytes(&self) -> &[u8]
        ensures { result.now ≡ self.now }
    {
        &self.bytes[..self.len]
    }

    /// The text.
    pub fn text(&self) -> &str
        ensures { result.now ≡ self.now }
    {
        ascii_text(&self.bytes[..self.len])
    }
}

/// A letter, a digit, an underscore or a dash.
pub(crate) fn is_name_letter(b: u8) -> bool
    ensures { result ≡ is_name_byte b }
{
    b.is_ascii_alphanumeric() || b == b'_' || b == b'-'
}

/// Whether all bytes are of names.
fn all_name_bytes(text: &[u8]) -> bool
    ensures { result ≡ list_all is_name_byte text.now }
{
    text.iter().all(|b| is_name_letter(*b))
}

/// ASCII bytes as text.
fn ascii_text(bytes: &[u8]) -> &str
    requires { IsTrue (list_all is_name_byte bytes.now) }
    ensures { result.now ≡ bytes.now }
{
    match std::str::from_utf8(bytes) {
        Ok(text) => text,
        Err(_) => unreachable!(),
    }
}
