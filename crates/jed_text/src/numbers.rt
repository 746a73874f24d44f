ghost use Rattle.std.specs.Prelude.{◌≡◌, ◌<◌, ◌≤◌, ◌^◌, IfSome};
ghost use Rattle.std.specs.Option.{option_map};
ghost use Rattle.mig_base.specs.FuseText.{if_blank as blank_behind, number_alone as only_number, number_of_four as four_in_front};
ghost use Rattle.mig_base.specs.Numbers.{number_at as number_in_front};
ghost use Rattle.jed_text.specs.Digits.{base_of, value_of};

use crate::cut::{all_blank, skip_blanks};

/// How numbers are written.
#[derive(Clone, Copy)]
pub enum Base {
    Decimal,
    Hexadecimal,
}

/// The value of a digit; hexadecimal ones are of either case.
fn digit(base: Base, byte: u8) -> Option<u32>
    ensures value { result ≡ value_of base byte }
    ensures small { IfSome result (λ d. d < base_of base) }
{
    match (base, byte) {
        (_, b'0'..=b'9') => Some(u32::from(byte) - 48),
        (Base::Hexadecimal, b'A'..=b'F') => Some(u32::from(byte) - 55),
        (Base::Hexadecimal, b'a'..=b'f') => Some(u32::from(byte) - 87),
        _ => None,
    }
}

/// The base of the numbers.
fn radix(base: Base) -> u32
    ensures { result ≡ base_of base }
{
    match base {
        Base::Decimal => 10,
        Base::Hexadecimal => 16,
    }
}

/// A number of one to `most` digits at the front of a text, and the rest.
pub fn number_at(base: Base, most: usize, text: &[u8]) -> Option<(u32, &[u8])>
    requires { base_of base ^ most < 2 ^ 32 }
    ensures said { option_map (λ p. (p.0, p.1.now)) result ≡ number_in_front (value_of base) (base_of base) most text.now }
    ensures fits { IfSome result (λ p. p.0 < base_of base ^ most) }
{
    let mut number = 0;
    for (i, byte) in text.iter().enumerate() {
        match digit(base, *byte) {
            None if i == 0 => return None,
            None => return Some((number, &text[i..])),
            Some(_) if i == most => return None,
            Some(value) => number = number * radix(base) + value,
        }
    }
    if text.is_empty() {
        None
    } else {
        Some((number, &[]))
    }
}

/// Blanks, a number of one to `most` digits, and blanks.
pub fn number_alone(base: Base, most: usize, text: &[u8]) -> Option<u32>
    requires { base_of base ^ most < 2 ^ 32 }
    ensures said { result ≡ only_number (value_of base) (base_of base) most text.now }
    ensures fits { IfSome result (λ n. n < base_of base ^ most) }
{
    match number_at(base, most, skip_blanks(text)) {
        Some((number, behind)) if all_blank(behind) => Some(number),
        _ => None,
    }
}

/// The number of the first four bytes of a text, if they are digits.
pub fn number_of_four(base: Base, text: &[u8]) -> Option<u32>
    ensures said { result ≡ four_in_front (value_of base) (base_of base) text.now }
    ensures fits { IfSome result (λ n. n < base_of base ^ 4) }
{
    if text.len() < 4 {
        return None;
    }
    match number_at(base, 4, &text[..4]) {
        Some((number, [])) => Some(number),
        _ => None,
    }
}
