use crate::faults::Fault;
use std::alloc::{AllocError, Global};
use std::mem;

/// Where the reading of a line stands.
#[derive(Clone, Copy, PartialEq, Eq)]
enum Place {
    Between,
    Plain,
    Quoted,
    Escape,
    FirstDigit,
    SecondDigit(u32),
    Wrong,
}

/// The words of a line, as far as it is read.
#[derive(Drop)]
struct Reading {
    words: Vec<String>,
    word: String,
    place: Place,
}

impl Reading {
    /// Ends the word that is being read.
    fn end_word(&mut self, alloc: Global) -> Result<(), AllocError> {
        let word = mem::replace(&mut self.word, String::new(alloc));
        self.words.push(word)?;
        self.place = Place::Between;
        Ok(())
    }

    /// Adds a character to the word.
    fn add(&mut self, c: char, place: Place) -> Result<(), AllocError> {
        self.word.push(c)?;
        self.place = place;
        Ok(())
    }

    /// Takes the letter of an escape.
    fn escape(&mut self, c: char) -> Result<(), AllocError> {
        match c {
            'n' => self.add('\n', Place::Quoted),
            'r' => self.add('\r', Place::Quoted),
            't' => self.add('\t', Place::Quoted),
            '"' | '\\' => self.add(c, Place::Quoted),
            _ => {
                self.place = if c == 'x' {
                    Place::FirstDigit
                } else {
                    Place::Wrong
                };
                Ok(())
            }
        }
    }

    /// Takes the first digit of a code.
    fn first_digit(&mut self, c: char) {
        self.place = match c.to_digit(16) {
            Some(digit) => Place::SecondDigit(digit),
            None => Place::Wrong,
        };
    }

    /// Takes the second digit of a code.
    fn second_digit(&mut self, first: u32, c: char) -> Result<(), AllocError> {
        if let Some(digit) = c.to_digit(16) {
            if let Some(code) = char::from_u32(first.wrapping_mul(16).wrapping_add(digit)) {
                return self.add(code, Place::Quoted);
            }
        }
        self.place = Place::Wrong;
        Ok(())
    }

    /// Takes a character of a line.
    fn take(&mut self, alloc: Global, c: char) -> Result<(), AllocError> {
        match (self.place, c) {
            (Place::Between, ' ') | (Place::Wrong, _) => Ok(()),
            (Place::Between, '"') => {
                self.place = Place::Quoted;
                Ok(())
            }
            (Place::Plain, ' ') | (Place::Quoted, '"') => self.end_word(alloc),
            (Place::Between | Place::Plain, _) => self.add(c, Place::Plain),
            (Place::Quoted, '\\') => {
                self.place = Place::Escape;
                Ok(())
            }
            (Place::Quoted, _) => self.add(c, Place::Quoted),
            (Place::Escape, _) => self.escape(c),
            (Place::FirstDigit, _) => {
                self.first_digit(c);
                Ok(())
            }
            (Place::SecondDigit(first), _) => self.second_digit(first, c),
        }
    }
}

/// The words of a line.
///
/// # Errors
/// `Spelling` where a quote isn't closed or an escape is none.
pub fn words_of(alloc: Global, line: &str) -> Result<Vec<String>, Fault> {
    let mut reading = Reading {
        words: Vec::new(alloc),
        word: String::new(alloc),
        place: Place::Between,
    };
    for c in line.chars() {
        reading.take(alloc, c)?;
    }
    match reading.place {
        Place::Between => {}
        Place::Plain => reading.end_word(alloc)?,
        _ => return Err(Fault::Spelling),
    }
    Ok(reading.words)
}
