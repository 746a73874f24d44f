ghost use Rattle.std.specs.Prelude.{◌≡◌, ◌==◌, ◌<◌, ◌≤◌, ◌+◌, ◌-◌, ◌^◌, ◌∷◌, ◌++◌, ◌&&◌, ℕ, nat_lt, slice_index, [], length, Option, MatchOption, IfSome};
ghost use Rattle.std.specs.List.{position};
ghost use Rattle.mig_base.specs.Lines as text;
ghost use Rattle.text_lines.specs.Statements.{text_line, lines_behind, line_here, Takes};

use crate::line_words::is_comment;
use std::marker::Model;

/// A line that has words and is no comment: its number from 1, and its bytes without its end.
#[derive(Clone, Copy)]
pub struct Line<'a> {
    pub n: u32,
    pub text: &'a [u8],
}

/// The lines of a text that are still to be read. Contracts see their numbers and words.
#[derive(Drop)]
pub struct Lines<'a> {
    read: u32,
    rest: &'a [u8],
}

impl<'a> Model for Lines<'a> {
    ghost use Rattle.std.specs.Prelude.{List, ◌<◌, ◌+◌, ◌^◌, length};
    ghost use Rattle.mig_base.specs.Lines.{TextLine};
    ghost use Rattle.text_lines.specs.Statements.{lines_behind};

    ghost Value = { List TextLine };

    ghost view = { λ lines. lines_behind lines.read lines.rest.now };

    ghost invariant = { λ lines. lines.read + length lines.rest.now < 2 ^ 32 };
}

impl<'a> Lines<'a> {
    /// The lines of a text.
    pub fn new(bytes: &'a [u8]) -> Lines<'a>
        requires { length bytes.now < 2 ^ 32 }
        ensures { result ≡ text.text_lines bytes.now }
    {
        Lines {
            read: 0,
            rest: bytes,
        }
    }

    /// Takes the first line; none where no line is left.
    pub fn next_line(&mut self) -> Option<Line<'a>>
        ensures { Takes result self.old self.new }
    {
        match first_counted(self.read, self.rest) {
            Some((line, rest)) => {
                self.read = line.n;
                self.rest = rest;
                Some(line)
            }
            None => None,
        }
    }
}

/// The first line that counts of a text behind so many lines, and what stands behind it.
fn first_counted(before: u32, bytes: &[u8]) -> Option<(Line, &[u8])>
    requires { before + length bytes.now < 2 ^ 32 }
    ensures lines { MatchOption result (lines_behind before bytes.now ≡ []) (λ p. lines_behind before bytes.now ≡ text_line p.0 ∷ lines_behind p.0.n p.1.now) }
    ensures room { IfSome result (λ p. p.0.n + length p.1.now ≤ before + length bytes.now) }
{
    let mut read = before;
    let mut rest = bytes;
    while !rest.is_empty() {
        let (line, behind) = cut_line(rest);
        read += 1;
        rest = behind;
        if !is_comment(line) {
            return Some((
                Line {
                    n: read,
                    text: line,
                },
                rest,
            ));
        }
    }
    None
}

/// The first line without its end, and what stands behind it.
fn cut_line(bytes: &[u8]) -> (&[u8], &[u8])
    ensures lines { (read : ℕ) → lines_behind read bytes.now ≡ line_here (read + 1) result.0.now ++ lines_behind (read + 1) result.1.now }
    ensures shorter { 0 < length bytes.now → length result.1.now < length bytes.now }
{
    match line_end(bytes) {
        Some(end) => (without_cr(&bytes[..end]), &bytes[end + 1..]),
        None => (bytes, &[]),
    }
}

/// The place of the first LF.
fn line_end(bytes: &[u8]) -> Option<usize>
    ensures { result ≡ position (λ b. b == 10) bytes.now }
{
    bytes.iter().position(|b| *b == b'\n')
}

/// A line without one CR at its end.
fn without_cr(line: &[u8]) -> &[u8]
    ensures { result.now ≡ text.without_cr line.now }
{
    if ends_in_cr(line) {
        &line[..line.len() - 1]
    } else {
        line
    }
}

/// Whether a line has a CR at its end.
fn ends_in_cr(line: &[u8]) -> bool
    ensures { result ≡ (nat_lt 0 (length line.now) && (slice_index line.now (length line.now - 1) == 13)) }
{
    !line.is_empty() && line[line.len() - 1] == b'\r'
}
