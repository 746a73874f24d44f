ghost use Rattle.std.specs.Prelude.{◌≡◌, map};
ghost use Rattle.mig_base.specs.FuseText as spec;
ghost use Rattle.jed_text.specs.Bodies.{statements_of};
ghost use Rattle.jed_text.specs.Marks.{state_by};
ghost use Rattle.jed_text.specs.ReadAnswer.{IsAnswer};

use crate::body::Body;
use crate::marks::{Mark, marks_of, states_of, twice_refusal, unset_refusal};
use crate::overall::overall_of;
use crate::sums::first_other_sum;
use jed_write::fuse_sum;
use mig_base::{Fuses, Items, JedError};
use std::alloc::Global;

/// The states that are listed, and `other` for each fuse that is not listed, unless a said fuse sum differs.
fn checked_states(alloc: Global, body: Body, marks: &[Mark], other: bool) -> Result<Fuses, JedError>
    ensures { IsAnswer result (spec.checked_sum (statements_of body.entry) (map (state_by other) marks.now)) }
{
    let Ok(states) = states_of(alloc, marks, other) else {
        return Err(JedError::Memory);
    };
    if let Some(refusal) = first_other_sum(fuse_sum(states.as_slice()), body) {
        return Err(refusal);
    }
    Ok(Fuses {
        bits: Items::new(states),
    })
}

/// The states of so many fuses, or the first refusal from the addresses on; `default` is the state of those that are not listed.
fn fuses_of_count(
    alloc: Global,
    body: Body,
    default: Option<bool>,
    count: u32,
) -> Result<Fuses, JedError>
    requires { default ≡ spec.default_in (statements_of body) }
    ensures { IsAnswer result (spec.fuses_of_count (statements_of body.entry) count) }
{
    let marks = marks_of(alloc, count as usize, body)?;
    if let Some(refusal) = twice_refusal(marks.as_slice()) {
        return Err(refusal);
    }
    if let Some(refusal) = unset_refusal(default, marks.as_slice()) {
        return Err(refusal);
    }
    checked_states(alloc, body, marks.as_slice(), default.unwrap_or(false))
}

/// The states of the fuses that the fields of a body say, or the first refusal.
pub fn fuses_in(alloc: Global, body: Body) -> Result<Fuses, JedError>
    ensures { IsAnswer result (spec.fuses_in (statements_of body.entry) (spec.loose_of body.entry.at (spec.pieces body.entry.text.now))) }
{
    let overall = overall_of(body)?;
    if let Some(at) = body.loose() {
        return Err(JedError::BadField { at });
    }
    match overall.count {
        Some(count) => fuses_of_count(alloc, body, overall.default, count),
        None => Err(JedError::NoCount),
    }
}
