ghost use Rattle.std.specs.Prelude.{◌<◌, ◌^◌, length};
ghost use Rattle.mig_base.specs.BoardText.{net_of_text};
ghost use Rattle.net_text.specs.Statements.{Answers};

use crate::judging::any_ends;
use crate::lines::said_lines;
use crate::parts::judged;
use crate::wiring::wiring;
use mig_base::{Net, NetError};
use std::alloc::Global;

/// The wiring that a board text says, or the first refusal.
///
/// # Errors
/// The refusal of the first line that fails, with its number from 1; `NoEnd` where none fails and there is no `end`;
/// `Memory`.
pub fn read_net(alloc: Global, bytes: &[u8]) -> Result<Net, NetError>
    requires { length bytes.now < 2 ^ 32 }
    ensures { Answers (net_of_text bytes.now) result }
{
    let Ok(lines) = said_lines(alloc, bytes) else {
        return Err(NetError::Memory);
    };
    let parts = judged(alloc, lines.as_slice())?;
    if !any_ends(lines.as_slice()) {
        return Err(NetError::NoEnd);
    }
    match wiring(alloc, lines.as_slice(), parts) {
        Ok(net) => Ok(net),
        Err(_) => Err(NetError::Memory),
    }
}
