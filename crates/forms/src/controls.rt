ghost use Rattle.std.specs.Prelude.{◌≡◌, ◌<◌, length, IfOk};
ghost use Rattle.board.specs.Joined.{equations_of};
ghost use Rattle.joiner.specs.AbsorbedNets.{IsAbsorbedTable};
ghost use Rattle.forms.specs.Outcomes.{IsControlOf, control_by as control_made};

use crate::absorbing::{Absorbed, Cone};
use crate::covers::cover_of;
use crate::old::{Products, old_products};
use joiner::JoinedPart;
use mig_base::{NoMemory, Part};
use std::alloc::Global;

/// What Enable, Reset or Preset of a unit comes to: its products, the number of its variables where they are more than 32 behind
/// absorbed nets, or a cover with too many primes.
#[derive(Drop)]
pub enum Control {
    Made { products: Products },
    Wide { count: u32 },
    PrimesOver,
}

/// What a part of a unit other than Logic comes to: the old products if they read no absorbed net, else the cover. Fails for want of
/// memory alone.
pub fn control_of(
    alloc: Global,
    absorbed: &Absorbed,
    unit: u32,
    part: Part,
) -> Result<Control, NoMemory>
    requires table { IsAbsorbedTable absorbed.now.board.now absorbed.now.units.now absorbed.now.nets }
    requires unit { unit < length (equations_of absorbed.now.board.now).units }
    ensures { IfOk result (IsControlOf absorbed.now.board.now absorbed.now.units.now unit part) }
{
    let products = old_products(alloc, absorbed.board, unit, part)?;
    if !absorbed.is_read_by(products.items()) {
        return Ok(Control::Made { products });
    }
    match absorbed.join(alloc, unit, part)? {
        Cone::Wide { count } => Ok(Control::Wide { count }),
        Cone::Narrow(mut joined) => {
            let cover = cover_of(alloc, absorbed.board, &mut joined, false)?;
            Ok(control_by(cover))
        }
    }
}

fn control_by(cover: Option<Products>) -> Control
    ensures { result ≡ control_made cover }
{
    match cover {
        Some(products) => Control::Made { products },
        None => Control::PrimesOver,
    }
}
