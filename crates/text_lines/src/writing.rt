ghost use Rattle.std.specs.Prelude.{◌≡◌, ◌++◌, map, OnOk, string_bytes};
ghost use Rattle.mig_base.specs.WrittenBoard.{written_line};

use std::alloc::AllocError;

/// Writes a line of words, with a space between each two and an LF at the end.
pub fn write_line(text: &mut String, words: &[&str]) -> Result<(), AllocError>
    ensures { OnOk result (string_bytes text.new ≡ string_bytes text.old ++ written_line (map (λ w. w.now) words.now)) }
{
    for (i, word) in words.iter().enumerate() {
        if i > 0 {
            text.push_str(" ")?;
        }
        text.push_str(word)?;
    }
    text.push_str("\n")
}
