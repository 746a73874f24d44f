ghost use Rattle.std.specs.Prelude.{◌<◌, ℕ, IfOk};
ghost use Rattle.std.specs.List.{AllPairs};
ghost use Rattle.mig_base.specs.Among.{Among};
ghost use Rattle.structure.specs.Absorbable.{IsAbsorbable};
ghost use Rattle.board.specs.Joined.{equations_of};

use board::Board;
use mig_base::NoMemory;
use std::alloc::Global;

/// All units of a board that can be absorbed, rising.
pub fn absorbable_units(alloc: Global, board: &Board) -> Result<Vec<u32>, NoMemory>
    ensures rises { IfOk result (λ units. AllPairs (◌<◌) units.items) }
    ensures absorbable { IfOk result (λ units. (u : ℕ) → Among u units.items → IsAbsorbable (equations_of board.now) u) }
{
    let Ok(count) = u32::try_from(board.units().len()) else {
        return Err(NoMemory);
    };
    let mut absorbed = Vec::new(alloc);
    for unit in 0..count {
        if board.absorbable(unit) {
            absorbed.push(unit)?;
        }
    }
    Ok(absorbed)
}
