use crate::faults::Fault;
use mig_base::{FileName, Name, Stem, file_name};
use std::alloc::{AllocError, Global};

/// The name of a file: a stem, a dot and a chip's name where there is one, a dot and an ending.
///
/// # Errors
/// `Name` where the text is none.
pub fn name_of(alloc: Global, text: &str) -> Result<FileName, Fault> {
    let Some((front, ending)) = text.rsplit_once('.') else {
        return Err(Fault::Name);
    };
    let Some((stem, chip)) = front.split_once('.') else {
        let stem = Stem::new(alloc, front.as_bytes())?;
        return Ok(file_name(alloc, &stem, None, ending)?);
    };
    let Some(chip) = Name::new(chip.as_bytes()) else {
        return Err(Fault::Name);
    };
    let stem = Stem::new(alloc, stem.as_bytes())?;
    Ok(file_name(alloc, &stem, Some(&chip), ending)?)
}

/// What stands behind a name or a stem in a file's name.
fn rest_of<'a>(text: &'a str, name: &str) -> Option<&'a str> {
    let rest = text.strip_prefix(name)?;
    if rest.is_empty() || rest.starts_with('.') {
        Some(rest)
    } else {
        None
    }
}

/// Files in memory, each under a name of its own.
#[derive(Drop)]
pub struct Held {
    files: Vec<(FileName, Vec<u8>)>,
}

impl Held {
    /// No file.
    pub fn new(alloc: Global) -> Held {
        Held {
            files: Vec::new(alloc),
        }
    }

    /// The bytes under a name.
    pub fn get(&self, name: &str) -> Option<&[u8]> {
        for file in &self.files {
            if file.0.text() == name {
                return Some(file.1.as_slice());
            }
        }
        None
    }

    /// Holds the bytes under the name, in place of what it held.
    pub fn put(&mut self, name: FileName, bytes: Vec<u8>) -> Result<(), AllocError> {
        self.files.retain(|file| file.0.text() != name.text());
        self.files.push((name, bytes))?;
        Ok(())
    }

    /// Holds nothing under the name.
    pub fn remove(&mut self, name: &str) {
        self.files.retain(|file| file.0.text() != name);
    }

    /// Holds these files too, each in place of what its name held.
    pub fn put_all(&mut self, other: Held) -> Result<(), AllocError> {
        for (name, bytes) in other.files {
            self.put(name, bytes)?;
        }
        Ok(())
    }

    /// Whether each file of this name, or under this stem, has the same bytes as the one of the other. `None` where there is no
    /// such file.
    pub fn is_same(
        &self,
        alloc: Global,
        name: &str,
        other: &str,
    ) -> Result<Option<bool>, AllocError> {
        let mut found = None;
        for (text, bytes) in &self.files {
            let Some(rest) = rest_of(text.text(), name) else {
                continue;
            };
            let twin = format!(in alloc; "{other}{rest}")?;
            let is_twin = self
                .get(twin.as_str())
                .is_some_and(|b| b == bytes.as_slice());
            found = Some(is_twin && found.unwrap_or(true));
        }
        Ok(found)
    }

    /// Adds copies of the files that the others don't hold.
    fn copy_into(
        &self,
        alloc: Global,
        others: Option<&Held>,
        files: &mut Vec<(FileName, Vec<u8>)>,
    ) -> Result<(), Fault> {
        for (name, bytes) in &self.files {
            if others.is_none_or(|held| held.get(name.text()).is_none()) {
                let bytes = Vec::from_slice(alloc, bytes.as_slice())?;
                files.push((name.copy(alloc)?, bytes))?;
            }
        }
        Ok(())
    }

    /// Copies of these files, with the changed ones in place of those of the same name.
    pub fn changed_by(
        &self,
        alloc: Global,
        changed: &Held,
    ) -> Result<Vec<(FileName, Vec<u8>)>, Fault> {
        let mut files = Vec::new(alloc);
        changed.copy_into(alloc, None, &mut files)?;
        self.copy_into(alloc, Some(changed), &mut files)?;
        Ok(files)
    }

    /// Adds a line of the names to a text, after a word; no line where there is no file.
    pub fn write_names(&self, text: &mut String, word: &str) -> Result<(), AllocError> {
        if self.files.is_empty() {
            return Ok(());
        }
        text.push_str(word)?;
        for file in &self.files {
            text.push(' ')?;
            text.push_str(file.0.text())?;
        }
        text.push('\n')?;
        Ok(())
    }
}
