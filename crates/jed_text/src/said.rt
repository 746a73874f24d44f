ghost use Rattle.std.specs.Prelude.{◌≡◌, ◌||◌};
ghost use Rattle.std.specs.List.{list_all};
ghost use Rattle.mig_base.specs.FuseText.{is_state as is_state_digit, is_blank as blank, listing_of as listing_behind, default_of as default_behind, count_of as count_behind, sum_of as sum_behind, said_by as said_of_text};
ghost use Rattle.mig_base.specs.FuseText.{Count, or_formless, number_alone as only_number};
ghost use Rattle.mig_base.specs.Numbers.{digit_value};
ghost use Rattle.jed_text.specs.Sayings.{said_of};

use crate::cut::{all_blank, is_blank, skip_blanks};
use crate::numbers::{Base, number_alone, number_at};

/// What a field says. A `Listing` keeps the text behind its number, whose digits are the states.
#[derive(Clone, Copy)]
pub enum Said<'a> {
    Count(u32),
    Default(bool),
    Listing { first: u32, digits: &'a [u8] },
    FuseSum(u16),
    Kept,
    Other,
    Formless,
}

/// Whether a byte is a digit 0 or 1.
pub fn is_state(byte: u8) -> bool
    ensures { result ≡ is_state_digit byte }
{
    byte == b'0' || byte == b'1'
}

/// Whether a text holds digits 0 and 1 and blanks alone.
fn all_states(text: &[u8]) -> bool
    ensures { result ≡ list_all (λ c. blank c || is_state_digit c) text.now }
{
    text.iter().all(|byte| is_blank(*byte) || is_state(*byte))
}

/// What an L field says, by its text behind the L.
fn listing_of(text: &[u8]) -> Said<'_>
    ensures { said_of result ≡ listing_behind text.now }
{
    match number_at(Base::Decimal, 9, skip_blanks(text)) {
        None => Said::Formless,
        Some((first, [])) => Said::Listing { first, digits: &[] },
        Some((first, [blank, digits @ ..])) if is_blank(*blank) && all_states(digits) => {
            Said::Listing { first, digits }
        }
        Some(_) => Said::Formless,
    }
}

/// What an F field says, by its text behind the F.
fn default_of(text: &[u8]) -> Said<'_>
    ensures { said_of result ≡ default_behind text.now }
{
    match number_alone(Base::Decimal, 1, text) {
        Some(0) => Said::Default(false),
        Some(1) => Said::Default(true),
        _ => Said::Formless,
    }
}

/// What a QF field says, by its text behind the F.
fn count_alone(number: &[u8]) -> Said<'_>
    ensures { said_of result ≡ or_formless Count (only_number digit_value 10 9 number.now) }
{
    match number_alone(Base::Decimal, 9, number) {
        Some(count) => Said::Count(count),
        None => Said::Formless,
    }
}

/// What a field says that begins with Q, by its text behind the Q.
fn count_of(text: &[u8]) -> Said<'_>
    ensures { said_of result ≡ count_behind text.now }
{
    match text {
        [b'F', number @ ..] => count_alone(number),
        _ => Said::Other,
    }
}

/// What a C field says, by its text behind the C.
fn sum_of(text: &[u8]) -> Said<'_>
    ensures { said_of result ≡ sum_behind text.now }
{
    match number_alone(Base::Hexadecimal, 4, text) {
        Some(sum) => Said::FuseSum(sum as u16),
        None => Said::Formless,
    }
}

/// What a field says, by its text from the identifier on.
pub fn said_by(text: &[u8]) -> Said<'_>
    ensures { said_of result ≡ said_of_text text.now }
{
    match text {
        [] => Said::Other,
        [b'Q', rest @ ..] => count_of(rest),
        [b'F', rest @ ..] => default_of(rest),
        [b'L', rest @ ..] => listing_of(rest),
        [b'C', rest @ ..] => sum_of(rest),
        [b'K', ..] => Said::Kept,
        _ => Said::Other,
    }
}
