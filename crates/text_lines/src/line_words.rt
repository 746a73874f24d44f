ghost use Rattle.std.specs.Prelude.{◌≡◌, map, IfOk};
ghost use Rattle.std.specs.Str.{bytes_eq};
ghost use Rattle.mig_base.specs.Lines as text;

use std::alloc::{AllocError, Global};

/// Whether a word is this text.
pub fn is(word: &[u8], text: &[u8]) -> bool
    ensures { result ≡ bytes_eq word.now text.now }
{
    word == text
}

/// The words of a line, between spaces and tabs.
pub fn words(alloc: Global, line: &[u8]) -> Result<Vec<&[u8]>, AllocError>
    ensures { IfOk result (λ words. map (λ w. w.now) words.items ≡ text.words_of line.now) }
{
    line.split(|b| is_gap(*b))
        .filter(|word| !word.is_empty())
        .collect(alloc)
}

/// Whether a line has no words, or a first one that begins with a hash sign.
pub(crate) fn is_comment(line: &[u8]) -> bool
    ensures { result ≡ text.is_comment (text.words_of line.now) }
{
    for b in line {
        if !is_gap(*b) {
            return *b == b'#';
        }
    }
    true
}

/// Whether a byte stands between words: a space or a tab.
fn is_gap(byte: u8) -> bool
    ensures { result ≡ text.is_gap byte }
{
    byte == b' ' || byte == b'\t'
}
