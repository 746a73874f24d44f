ghost use Rattle.std.specs.Prelude.{ℕ, List, Option, string_bytes};
ghost use Rattle.mig_io.specs.Counts.{PutCauses};
ghost use Rattle.shown_runs.specs.Sending.{Passes};

use mig_io::{PutError, Sink};
use std::alloc::Global;

/// A text is sent once it has so many bytes.
const PIECE: usize = 32_768;

/// Sends a text that is long enough, and goes on with an empty one.
pub(crate) fn put_piece<O: Sink>(
    alloc: Global,
    text: &mut String,
    out: &mut O,
) -> Result<(), PutError>
    ensures sent { Passes (O.sent out.old) (O.sent out.new) (string_bytes text.old) (string_bytes text.new) result }
    ensures causes { PutCauses (O.faults out.old) (O.faults out.new) result }
{
    if text.len() < PIECE {
        return Ok(());
    }
    out.put(alloc, text.as_bytes())?;
    text.clear();
    Ok(())
}
