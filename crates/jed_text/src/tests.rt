mod listed;
mod one_output;
mod refusals;
mod spellings;

use crate::read_jed;
use mig_base::JedError;
use std::alloc::Global;

/// Why a text is refused.
fn refusal(alloc: Global, text: &[u8]) -> Option<JedError> {
    match read_jed(alloc, text) {
        Ok(_) => None,
        Err(refusal) => Some(refusal),
    }
}
