ghost use Rattle.std.specs.Prelude.{◌≡◌, ◌<◌, All, None, Some, length, slice_get, slice_index_or, IfOk};
ghost use Rattle.mig_base.specs.declared.levels.Level.{Level as LevelOf};
ghost use Rattle.mig_base.specs.Levels.{or_x};
ghost use Rattle.trials.specs.Places.{level_by_place};
ghost use Rattle.mig_base.specs.Among.{Among};
ghost use Rattle.board.specs.Joined.{equations_of};
ghost use Rattle.level_laws.specs.SameBehaviour.{SamePorts};
ghost use Rattle.settle.specs.Made.{IsInputFor};
ghost use Rattle.trials.specs.Differences.{IsFirstDifference, IsReplay};

use crate::configs::{Configs, begin, step_both};
use crate::pairing::{Pairing, pairing_of};
use crate::places::level_or_x;
use board::Board;
use mig_base::{Level, NoMemory, Trace};
use std::alloc::Global;

/// The place of a port among the ports of a board.
fn place_of(ports: &[u32], port: u32) -> usize
    requires { Among port ports.now }
    ensures { slice_get ports.now result ≡ Some port }
{
    for (k, other) in ports.iter().enumerate() {
        if *other == port {
            return k;
        }
    }
    ports.len()
}

/// The levels that both boards show at a port of the first one.
fn shown_levels(pairing: &Pairing, pair: &Configs, place: usize) -> (Level, Level)
    requires { place < length pairing.now.shows }
    ensures left { result.0 ≡ or_x (λ (level : LevelOf). level) (level_by_place pair.now.left.items (Some place)) }
    ensures right { result.1 ≡ or_x (λ (level : LevelOf). level) (level_by_place pair.now.right.items (slice_index_or pairing.now.shows place None)) }
{
    (
        level_or_x(pair.left.as_slice(), Some(place)),
        level_or_x(pair.right.as_slice(), pairing.shows.items()[place]),
    )
}

/// Runs two boards with the same ports from power-up under the inputs of a trace, and gives the levels that its port shows
/// at the end. For the first difference these are its two levels. Only want of memory refuses it.
pub fn replay(alloc: Global, a: &Board, b: &Board, t: &Trace) -> Result<(Level, Level), NoMemory>
    requires ports { SamePorts a.now.net b.now.net }
    requires port { Among t.now.port (equations_of a.now).ports }
    requires steps { 0 < length t.now.script.steps }
    requires lawful { All (λ given. IsInputFor (equations_of a.now) given.levels) t.now.script.steps }
    ensures levels { IfOk result (λ levels. IsReplay a.now b.now t.now levels.0 levels.1) }
    ensures first { IsFirstDifference a.now b.now t.now → IfOk result (λ levels. (levels.0 ≡ t.now.left) × (levels.1 ≡ t.now.right)) }
{
    let pairing = pairing_of(alloc, a, b)?;
    let mut pair = begin(alloc, a, b)?;
    for given in t.script.steps.items() {
        step_both(a, b, &pairing, &mut pair, given);
    }
    let place = place_of(a.circuit().ports.items(), t.port);
    Ok(shown_levels(&pairing, &pair, place))
}
