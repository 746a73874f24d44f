ghost use Rattle.std.specs.Prelude.{◌≡◌, true, length, Some, None, IfOk};
ghost use Rattle.level_laws.specs.Settled.{IsSettled};
ghost use Rattle.level_laws.specs.Runs.{IsStep, power_up as stored_at_start, shown_levels};
ghost use Rattle.settle.specs.Configs.{last_of, handed_count as count_of_handed};
ghost use Rattle.level_laws.specs.PureLevels.{HasPureStored};
ghost use Rattle.board.specs.Joined.{equations_of};
ghost use Rattle.settle.specs.Made.{IsInputFor, IsConfigFor, IsPureConfig};

use crate::config::{Config, at_power_up, count_handed, show_ports};
use crate::following::step_circuit;
use board::Board;
use mig_base::{Inputs, Level, NoMemory};
use std::alloc::Global;

/// How many levels a board is handed: one for each Input and Both port.
pub fn handed_count(b: &Board) -> usize
    ensures count { result ≡ count_of_handed (equations_of b.now) }
{
    count_handed(b.circuit())
}

/// A board at power-up: all registers store 0, and no step was made. It has the room that `step` uses. Only want of memory
/// refuses it.
pub fn power_up(alloc: Global, b: &Board) -> Result<Config, NoMemory>
    ensures stored { IfOk result (λ config. config.stored ≡ stored_at_start (equations_of b.now)) }
    ensures last { IfOk result (λ config. last_of config ≡ None) }
    ensures made { IfOk result (IsConfigFor (equations_of b.now)) }
    ensures pure { IfOk result (IsPureConfig (equations_of b.now)) }
{
    at_power_up(alloc, b.circuit(), b.order())
}

/// One step of a board to new inputs. The first step only sets the inputs. In a later one each register whose clock rises
/// takes what the levels before the step make of it, and every other its visible Q; then the levels settle. Where pure
/// registers store 0 or 1, they do so again, and all pure nodes settle at 0 or 1. It takes no memory.
pub fn step(b: &Board, config: &mut Config, inputs: &Inputs)
    requires config { IsConfigFor (equations_of b.now) config.old }
    requires inputs { IsInputFor (equations_of b.now) inputs.now.levels }
    ensures step { IsStep (equations_of b.now) config.old.stored (last_of config.old) inputs.now.levels config.new.stored }
    ensures stepped { config.new.stepped ≡ true }
    ensures last { last_of config.new ≡ Some inputs.now.levels }
    ensures settled { IsSettled (equations_of b.now) config.new.stored inputs.now.levels config.new.levels }
    ensures made { IsConfigFor (equations_of b.now) config.new }
    ensures pure { HasPureStored (equations_of b.now) config.old.stored → IsPureConfig (equations_of b.now) config.new }
{
    step_circuit(b.circuit(), b.order(), config, inputs.levels.items());
}

/// The level of every port after a step, in board order: one place for each.
pub fn shows_into(b: &Board, config: &Config, out: &mut [Level])
    requires config { IsConfigFor (equations_of b.now) config.now }
    requires stepped { config.now.stepped ≡ true }
    requires places { length out.old ≡ length (equations_of b.now).ports }
    ensures shown { out.new ≡ shown_levels (equations_of b.now) config.now.levels }
{
    show_ports(b.circuit(), config, out);
}
