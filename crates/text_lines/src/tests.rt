use crate::{Lines, number, words, write_line};
use std::test::Fail;

/// The number of the next line and how many bytes its text has.
fn next(lines: &mut Lines) -> Option<(u32, usize)> {
    match lines.next_line() {
        Some(line) => Some((line.n, line.text.len())),
        None => None,
    }
}

#[test]
fn lines_that_do_not_count_have_a_number(rt: HostRuntime) {
    let mut lines = Lines::new(b"# none\none\n\n \t \n\t#two\nthree");
    assert_eq!(rt; next(&mut lines), Some((2, 3)));
    assert_eq!(rt; next(&mut lines), Some((6, 5)));
    assert_eq!(rt; next(&mut lines), None);
    assert_eq!(rt; next(&mut lines), None);
}

#[test]
fn one_cr_is_dropped_before_lf_alone(rt: HostRuntime) {
    let mut lines = Lines::new(b"a\r\nb\r\r\nc\r");
    assert_eq!(rt; next(&mut lines), Some((1, 1)));
    assert_eq!(rt; next(&mut lines), Some((2, 2)));
    assert_eq!(rt; next(&mut lines), Some((3, 2)));
    assert_eq!(rt; next(&mut lines), None);
}

#[test]
fn words_stand_between_spaces_and_tabs(rt: HostRuntime) -> Result<(), Fail> {
    let cut = words(rt.alloc(), b"\tnet  A\tin ")?;
    let words = cut.as_slice();
    assert_eq!(rt; words.len(), 3);
    assert!(rt; words[0] == b"net".as_slice());
    assert!(rt; words[1] == b"A".as_slice());
    assert!(rt; words[2] == b"in".as_slice());
    Ok(())
}

#[test]
fn numbers_have_one_to_nine_digits(rt: HostRuntime) {
    assert_eq!(rt; number(b"007"), Some(7));
    assert_eq!(rt; number(b"999999999"), Some(999_999_999));
    assert_eq!(rt; number(b"0000000000"), None);
    assert_eq!(rt; number(b""), None);
    assert_eq!(rt; number(b"1a"), None);
    assert_eq!(rt; number(b"-1"), None);
}

#[test]
fn a_line_is_written(rt: HostRuntime) -> Result<(), Fail> {
    let mut text = String::new(rt.alloc());
    write_line(&mut text, &["net", "A", "in"])?;
    write_line(&mut text, &["end"])?;
    assert!(rt; text.as_str() == "net A in\nend\n");
    Ok(())
}
