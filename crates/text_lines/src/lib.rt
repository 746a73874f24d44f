//! The lines of a text and the words of a line, as all texts of the project have them: lines end with LF and drop one CR
//! before it, words stand between spaces and tabs, and a line without words or with a hash sign first is read over.
#![tactic(auto)]

mod line_words;
mod lines;
mod numbers;
#[cfg(test)]
mod tests;
mod writing;

pub use line_words::{is, words};
pub use lines::{Line, Lines};
pub use numbers::number;
pub use writing::write_line;
