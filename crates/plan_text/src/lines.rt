ghost use Rattle.std.specs.Prelude.{◌≡◌, ◌<◌, ◌^◌, length, IfOk};
ghost use Rattle.plan_text.specs.PlanText as spec;

use crate::says::{Said, says};
use std::alloc::{AllocError, Global};
use text_lines::{Lines, words};

/// What a line says, and its number from 1.
#[derive(Clone, Copy)]
pub(crate) struct SaidLine {
    pub n: u32,
    pub says: Said,
}

/// What the lines of a text say, without those that have no words and the comments.
pub(crate) fn said_lines(alloc: Global, bytes: &[u8]) -> Result<Vec<SaidLine>, AllocError>
    requires { length bytes.now < 2 ^ 32 }
    ensures { IfOk result (λ lines. lines.items ≡ spec.said_lines bytes.now) }
{
    let mut left = Lines::new(bytes);
    let mut lines = Vec::new(alloc);
    while let Some(line) = left.next_line() {
        let words = words(alloc, line.text)?;
        lines.push(SaidLine {
            n: line.n,
            says: says(words.as_slice()),
        })?;
    }
    Ok(lines)
}
