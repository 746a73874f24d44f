use std::alloc::{AllocError, Global};

/// A report that is longer is told by its length, its first line and its last one.
const MOST_SHOWN: usize = 4_096;

/// Adds the bytes to a text: a line end as it is, other bytes that are no letters by their codes. A last line that isn't
/// ended gets a backslash.
pub fn write_shown(text: &mut String, bytes: &[u8]) -> Result<(), AllocError> {
    for byte in bytes {
        match *byte {
            b'\\' => text.push_str("\\\\")?,
            b'\n' | b' '..=b'~' => text.push(char::from(*byte))?,
            other => write!(text, "\\x{other:02x}")?,
        }
    }
    match bytes.last() {
        None | Some(b'\n') => Ok(()),
        Some(_) => text.push_str("\\\n"),
    }
}

/// Adds how long a text is, its first line and its last one.
fn write_digest(text: &mut String, shown: &str) -> Result<(), AllocError> {
    let bytes = shown.len();
    let lines = shown.lines().count();
    let first = shown.lines().next().unwrap_or("");
    let last = shown.lines().last().unwrap_or("");
    writeln!(text, "bytes {bytes}")?;
    writeln!(text, "lines {lines}")?;
    writeln!(text, "first {first}")?;
    writeln!(text, "last {last}")
}

/// Adds a report.
pub fn write_report(alloc: Global, text: &mut String, report: &[u8]) -> Result<(), AllocError> {
    let mut shown = String::new(alloc);
    write_shown(&mut shown, report)?;
    if shown.len() > MOST_SHOWN {
        return write_digest(text, shown.as_str());
    }
    text.push_str(shown.as_str())
}
