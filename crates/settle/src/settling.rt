ghost use Rattle.std.specs.Prelude.{◌≡◌, IfOk};
ghost use Rattle.mig_base.specs.declared.circuit.Levels.{Levels as LevelsOf};
ghost use Rattle.level_laws.specs.Settled.{IsSettled};
ghost use Rattle.level_laws.specs.PureLevels.{HasPureStored, HasPureLevels};
ghost use Rattle.board.specs.Joined.{equations_of};
ghost use Rattle.settle.specs.Made.{IsStateFor, IsInputFor, AreLevelsFor};

use crate::config::room_for;
use crate::evaluating::settle_circuit;
use board::Board;
use mig_base::{Inputs, Levels, NoMemory, State};
use std::alloc::Global;

/// The settled levels of a board under this state and these inputs: every net, drive and visible Q is what the others
/// make of it. There are no others. Where pure registers store 0 or 1, all pure nodes settle at 0 or 1. Only want of memory
/// refuses it.
pub fn settle(alloc: Global, b: &Board, state: &State, inputs: &Inputs) -> Result<Levels, NoMemory>
    requires state { IsStateFor (equations_of b.now) state.now.stored }
    requires inputs { IsInputFor (equations_of b.now) inputs.now.levels }
    ensures settled { IfOk result (λ levels. IsSettled (equations_of b.now) state.now.stored inputs.now.levels levels) }
    ensures only { IfOk result (λ levels. (other : LevelsOf) → IsSettled (equations_of b.now) state.now.stored inputs.now.levels other → levels ≡ other) }
    ensures made { IfOk result (AreLevelsFor (equations_of b.now)) }
    ensures pure { HasPureStored (equations_of b.now) state.now.stored → IfOk result (HasPureLevels (equations_of b.now)) }
{
    let mut levels = room_for(alloc, b.circuit())?;
    settle_into(b, state, inputs, &mut levels);
    Ok(levels)
}

/// Puts the settled levels of a board under this state and these inputs in place of any others. Where pure registers store
/// 0 or 1, all pure nodes settle at 0 or 1. It takes no memory.
pub fn settle_into(b: &Board, state: &State, inputs: &Inputs, out: &mut Levels)
    requires state { IsStateFor (equations_of b.now) state.now.stored }
    requires inputs { IsInputFor (equations_of b.now) inputs.now.levels }
    requires out { AreLevelsFor (equations_of b.now) out.old }
    ensures settled { IsSettled (equations_of b.now) state.now.stored inputs.now.levels out.new }
    ensures only { (other : LevelsOf) → IsSettled (equations_of b.now) state.now.stored inputs.now.levels other → out.new ≡ other }
    ensures made { AreLevelsFor (equations_of b.now) out.new }
    ensures pure { HasPureStored (equations_of b.now) state.now.stored → HasPureLevels (equations_of b.now) out.new }
{
    settle_circuit(
        b.circuit(),
        b.order(),
        state.stored.items(),
        inputs.levels.items(),
        out,
    );
}
