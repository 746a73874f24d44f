ghost use Rattle.std.specs.Prelude.{ℕ, ◌≡◌, ◌<◌, All, IfOk, IfSome, MatchOption, None, Some, length, slice_get};
ghost use Rattle.board.specs.Joined.{equations_of};
ghost use Rattle.level_laws.specs.SameBehaviour.{SamePorts};
ghost use Rattle.settle.specs.Made.{IsInputFor};
ghost use Rattle.trials.specs.Differences.{inputs_of, IsFirstDifference, IsReplayable, NoDifference};
ghost use Rattle.trials.specs.Stepping.{AreEven, IsDifferenceIn, IsFirstOver, IsPairing, IsUnevenAfter, NoneOver};
ghost use Rattle.trials.specs.Trials.{trial_of};

use crate::configs::{Configs, begin, step_both};
use crate::inputs::{front_of, trial};
use crate::pairing::{Pairing, pairing_of};
use crate::places::{first_uneven, level_or_x};
use board::Board;
use mig_base::{Level, NoMemory, Script, Trace};
use std::alloc::Global;

/// How many trials there are.
const TRIALS: u32 = 64;

/// Two levels that two boards show after a step at one port, by its place in the order of the first board.
#[derive(Clone, Copy)]
pub(crate) struct Uneven {
    pub step: usize,
    pub place: usize,
    pub left: Level,
    pub right: Level,
}

/// The first port at which two boards show two levels after this step.
fn uneven_after(
    places: &[Option<usize>],
    left: &[Level],
    right: &[Level],
    step: usize,
) -> Option<Uneven>
    ensures { MatchOption result (AreEven places.now left.now right.now) (IsUnevenAfter places.now left.now right.now step) }
{
    let place = first_uneven(places, left, right)?;
    Some(Uneven {
        step,
        place,
        left: level_or_x(left, Some(place)),
        right: level_or_x(right, places[place]),
    })
}

/// The same of what two boards show.
fn shown_uneven(pairing: &Pairing, pair: &Configs, step: usize) -> Option<Uneven>
    ensures { MatchOption result
        (AreEven pairing.now.shows pair.now.left.items pair.now.right.items)
        (IsUnevenAfter pairing.now.shows pair.now.left.items pair.now.right.items step) }
{
    uneven_after(
        pairing.shows.items(),
        pair.left.as_slice(),
        pair.right.as_slice(),
        step,
    )
}

/// The first step under these inputs of the first board, and the first port, at which two boards show two levels.
fn first_over(
    alloc: Global,
    a: &Board,
    b: &Board,
    pairing: &Pairing,
    script: &Script,
) -> Result<Option<Uneven>, NoMemory>
    requires ports { SamePorts a.now.net b.now.net }
    requires pairing { IsPairing a.now b.now pairing.now }
    requires lawful { All (λ given. IsInputFor (equations_of a.now) given.levels) script.now.steps }
    ensures first { IfOk result (λ found. MatchOption found (NoneOver a.now b.now (inputs_of script.now)) (IsFirstOver a.now b.now (inputs_of script.now))) }
{
    let mut pair = begin(alloc, a, b)?;
    for (n, given) in script.steps.items().iter().enumerate() {
        step_both(a, b, pairing, &mut pair, given);
        if let Some(uneven) = shown_uneven(pairing, &pair, n) {
            return Ok(Some(uneven));
        }
    }
    Ok(None)
}

/// The port at a place.
fn port_at(ports: &[u32], place: usize) -> u32
    requires { place < length ports.now }
    ensures { slice_get ports.now place ≡ Some result }
{
    ports[place]
}

/// The first difference of two boards in the trial of this number.
fn difference_in(
    alloc: Global,
    a: &Board,
    b: &Board,
    pairing: &Pairing,
    k: u32,
) -> Result<Option<Trace>, NoMemory>
    requires number { k < 64 }
    requires ports { SamePorts a.now.net b.now.net }
    requires pairing { IsPairing a.now b.now pairing.now }
    ensures first { IfOk result (λ found. MatchOption found (NoneOver a.now b.now (trial_of a.now.net k)) (IsDifferenceIn a.now b.now k)) }
{
    let script = trial(alloc, a, k)?;
    let Some(uneven) = first_over(alloc, a, b, pairing, &script)? else {
        return Ok(None);
    };
    let script = front_of(alloc, a, k, uneven.step as u64 + 1)?;
    let ports = a.circuit().ports.items();
    Ok(Some(Trace {
        script,
        port: port_at(ports, uneven.place),
        left: uneven.left,
        right: uneven.right,
    }))
}

/// The first difference of two boards with the same ports: that of the first trial, then step, then port of the first
/// board at which they show two levels. `None` exactly where no trial shows one. It can be replayed, and its script can be
/// written. Only want of memory refuses it.
pub fn first_difference(alloc: Global, a: &Board, b: &Board) -> Result<Option<Trace>, NoMemory>
    requires ports { SamePorts a.now.net b.now.net }
    ensures first { IfOk result (λ found. MatchOption found (NoDifference a.now b.now) (IsFirstDifference a.now b.now)) }
    ensures replayable { IfOk result (λ found. IfSome found (IsReplayable a.now)) }
{
    let pairing = pairing_of(alloc, a, b)?;
    for k in 0..TRIALS {
        if let Some(trace) = difference_in(alloc, a, b, &pairing, k)? {
            return Ok(Some(trace));
        }
    }
    Ok(None)
}
