ghost use Rattle.std.specs.Prelude.{◌≡◌, ◌==◌, IfOk, IsTrue};
ghost use Rattle.std.specs.List.{list_all};
ghost use Rattle.mig_base.specs.Lines.{parts};
ghost use Rattle.std.specs.Option.{option_map};
ghost use Rattle.mig_base.specs.Names.{file_name_of, is_stem_part, IsStemOf};

use crate::names::is_name_letter;
use crate::{Name, NoMemory};
use std::alloc::Global;
use std::marker::Model;

/// Why a text is no stem.
#[derive(Clone, Copy, Debug, PartialEq, Eq)]
pub enum NameError {
    Bad,
    Memory,
}

/// The most bytes of a stem.
const MOST: usize = 120;

/// The stem of a board's file names: 1 to 120 bytes of names and slashes, no slash first, last or doubled. Contracts see its bytes.
#[derive(Drop)]
pub struct Stem {
    text: String,
}

impl Model for Stem {
    ghost use Rattle.std.specs.Prelude.{List, ℕ, string_bytes};

    ghost Value = { List ℕ };

    ghost view = { λ s. string_bytes s.text };
}

impl Stem {
    /// The stem of this spelling. `Bad` exactly where the text is none.
    pub fn new(alloc: Global, text: &[u8]) -> Result<Stem, NameError>
        ensures { IsStemOf text.now result }
    {
        if text.len() > MOST || !all_parts(text) {
            return Err(NameError::Bad);
        }
        match String::from_str(alloc, stem_text(text)) {
            Ok(text) => Ok(Stem { text }),
            Err(_) => Err(NameError::Memory),
        }
    }

    /// The text.
    pub fn text(&self) -> &str
        ensures { result.now ≡ self.now }
    {
        self.text.as_str()
    }
}

/// The name of a file. Contracts see its bytes.
#[derive(Drop)]
pub struct FileName {
    text: String,
}

impl Model for FileName {
    ghost use Rattle.std.specs.Prelude.{List, ℕ, string_bytes};

    ghost Value = { List ℕ };

    ghost view = { λ f. string_bytes f.text };
}

impl FileName {
    /// The text.
    pub fn text(&self) -> &str
        ensures { result.now ≡ self.now }
    {
        self.text.as_str()
    }

    /// A copy.
    pub fn copy(&self, alloc: Global) -> Result<FileName, NoMemory>
        ensures { IfOk result (λ f. f ≡ self.now) }
    {
        let text = String::from_str(alloc, self.text.as_str())?;
        Ok(FileName { text })
    }
}

/// The stem, where there is a chip a dot and its name, a dot and the ending.
pub fn file_name(
    alloc: Global,
    stem: &Stem,
    chip: Option<&Name>,
    ending: &str,
) -> Result<FileName, NoMemory>
    ensures { IfOk result (λ f. f ≡ file_name_of stem.now (option_map (λ c. c.now) chip.entry) ending.now) }
{
    let mut text = String::from_str(alloc, stem.text())?;
    if let Some(name) = chip {
        text.push('.')?;
        text.push_str(name.text())?;
    }
    text.push('.')?;
    text.push_str(ending)?;
    Ok(FileName { text })
}

/// Whether each part between slashes is one of a stem.
fn all_parts(text: &[u8]) -> bool
    ensures { result ≡ list_all is_stem_part (parts (λ b. b == 47) text.now) }
{
    let mut begins = true;
    for byte in text {
        if *byte == b'/' {
            if begins {
                return false;
            }
            begins = true;
        } else if is_name_letter(*byte) {
            begins = false;
        } else {
            return false;
        }
    }
    !begins
}

/// A stem's bytes as text.
fn stem_text(bytes: &[u8]) -> &str
    requires { IsTrue (list_all is_stem_part (parts (λ b. b == 47) bytes.now)) }
    ensures { result.now ≡ bytes.now }
{
    match std::str::from_utf8(bytes) {
        Ok(text) => text,
        Err(_) => unreachable!(),
    }
}
