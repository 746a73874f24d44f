ghost use Rattle.std.specs.Prelude.{◌≡◌, ◌≢◌, ◌+◌, ◌<◌, ◌≤◌, ◌^◌, Ok, Err, length, map, count_by, nat_le, position, IfOk, IfErr, IfNone};
ghost use Rattle.mig_base.specs.declared.jedec.JedError.TheVariants.{Memory};
ghost use Rattle.mig_base.specs.FuseText as spec;
ghost use Rattle.jed_text.specs.Bodies.{statements_of};
ghost use Rattle.jed_text.specs.Sayings.{said_of};
ghost use Rattle.jed_text.specs.Marks.{with_state as mark_with, marked, marked_by, marked_in, is_twice, is_unset, twice_by, unset_by, state_by};

use crate::body::Body;
use crate::said::{Said, is_state};
use mig_base::JedError;
use std::alloc::{AllocError, Global};

/// How a fuse is listed: as intact, as blown, as neither or as both.
#[derive(Clone, Copy)]
pub struct Mark {
    pub intact: bool,
    pub blown: bool,
}

/// A fuse that is not listed.
const UNLISTED: Mark = Mark {
    intact: false,
    blown: false,
};

/// The number of states that these digits give.
fn state_count(digits: &[u8]) -> usize
    ensures { result ≡ count_by spec.is_state digits.now }
{
    digits.iter().filter(|digit| is_state(**digit)).count()
}

/// Whether a listing of these digits from the fuse `first` on ends within so many fuses.
fn ends_within(count: usize, first: u32, digits: &[u8]) -> bool
    ensures { result ≡ nat_le (first + length (spec.states_of digits.now)) count }
{
    let states = state_count(digits);
    if states > count {
        return false;
    }
    first as usize <= count - states
}

/// The refusal of a listing at the place `at` that goes past so many fuses.
fn address_refusal(count: usize, at: usize, said: Said) -> Option<JedError>
    ensures { result ≡ spec.address_refusal_by count at (said_of said.entry) }
{
    match said {
        Said::Listing { first, digits } if !ends_within(count, first, digits) => {
            Some(JedError::Address { at })
        }
        _ => None,
    }
}

/// A fuse that is listed with this state besides.
fn with_state(mark: Mark, state: bool) -> Mark
    ensures { result ≡ mark_with state mark }
{
    if state {
        Mark {
            blown: true,
            ..mark
        }
    } else {
        Mark {
            intact: true,
            ..mark
        }
    }
}

/// Marks the fuses from `first` on as these digits list them.
fn mark_digits(marks: &mut [Mark], first: usize, digits: &[u8])
    requires { first + length (spec.states_of digits.now) ≤ length marks.old }
    ensures { marks.new ≡ marked marks.old first (spec.states_of digits.now) }
{
    let mut fuse = first;
    for digit in digits {
        if is_state(*digit) {
            marks[fuse] = with_state(marks[fuse], *digit == b'1');
            fuse += 1;
        }
    }
}

/// Marks the fuses that a field at the place `at` lists, unless it goes past them.
fn mark_field(marks: &mut [Mark], at: usize, said: Said) -> Option<JedError>
    ensures refusal { result ≡ spec.address_refusal_by (length marks.old) at (said_of said.entry) }
    ensures marked { IfNone result (marks.new ≡ marked_by marks.old (said_of said.entry)) }
{
    let refusal = address_refusal(marks.len(), at, said);
    if refusal.is_some() {
        return refusal;
    }
    if let Said::Listing { first, digits } = said {
        mark_digits(marks, first as usize, digits);
    }
    None
}

/// How the fields of a body list so many fuses, or the first listing that goes past them.
pub fn marks_of(alloc: Global, count: usize, body: Body) -> Result<Vec<Mark>, JedError>
    ensures marks { IfOk result (λ marks. marked_in count (statements_of body.entry) ≡ Ok marks.items) }
    ensures refusal { IfErr result (λ e. e ≢ Memory → marked_in count (statements_of body.entry) ≡ Err e) }
{
    let Ok(mut marks) = vec![in alloc; UNLISTED; count] else {
        return Err(JedError::Memory);
    };
    for field in body.fields() {
        if let Some(refusal) = mark_field(marks.as_mut_slice(), field.at, field.said()) {
            return Err(refusal);
        }
    }
    Ok(marks)
}

/// The least fuse that is listed with both states.
fn first_twice(marks: &[Mark]) -> Option<usize>
    ensures { result ≡ position is_twice marks.now }
{
    marks.iter().position(|mark| mark.blown && mark.intact)
}

/// The least fuse that is not listed.
fn first_unset(marks: &[Mark]) -> Option<usize>
    ensures { result ≡ position is_unset marks.now }
{
    marks.iter().position(|mark| !(mark.blown || mark.intact))
}

/// The refusal of a fuse that is listed with both states.
pub fn twice_refusal(marks: &[Mark]) -> Option<JedError>
    requires { length marks.now < 2 ^ 32 }
    ensures { result ≡ twice_by marks.now }
{
    match first_twice(marks) {
        Some(fuse) => Some(JedError::FuseTwice { fuse: fuse as u32 }),
        None => None,
    }
}

/// The refusal of a fuse that is not listed, where no field gives the others' state.
pub fn unset_refusal(default: Option<bool>, marks: &[Mark]) -> Option<JedError>
    requires { length marks.now < 2 ^ 32 }
    ensures { result ≡ unset_by default marks.now }
{
    if default.is_some() {
        return None;
    }
    match first_unset(marks) {
        Some(fuse) => Some(JedError::FuseUnset { fuse: fuse as u32 }),
        None => None,
    }
}

/// The states that are listed, and `other` for each fuse that is not listed.
pub fn states_of(alloc: Global, marks: &[Mark], other: bool) -> Result<Vec<bool>, AllocError>
    ensures { IfOk result (λ states. states.items ≡ map (state_by other) marks.now) }
{
    marks
        .iter()
        .map(|mark| {
            if mark.blown {
                true
            } else if mark.intact {
                false
            } else {
                other
            }
        })
        .collect(alloc)
}
