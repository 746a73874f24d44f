ghost use Rattle.std.specs.Prelude.{◌≡◌, ◌<◌, ◌≤◌, All, map, IfOk};
ghost use Rattle.mig_base.specs.Boards.{is_handed as handed_by};
ghost use Rattle.board.specs.Joined.{equations_of};
ghost use Rattle.settle.specs.Made.{IsInputFor};
ghost use Rattle.sim_run.specs.WrittenScript.{IsWritableScript};
ghost use Rattle.trials.specs.Differences.{inputs_of};
ghost use Rattle.trials.specs.Trials.{handed_ports as ports_handed, trial_front, trial_of};

use crate::counting::counted_steps;
use crate::drawing::drawn_steps;
use board::Board;
use mig_base::{Inputs, Items, Net, NoMemory, Port, Script};
use std::alloc::Global;

/// How many steps a trial has.
pub(crate) const TRIAL_STEPS: u64 = 64;

/// Whether a port of this direction is handed a level.
pub(crate) fn is_handed(port: Port) -> bool
    ensures { result ≡ handed_by port }
{
    match port {
        Port::Input | Port::Both => true,
        Port::Inner | Port::Output => false,
    }
}

/// The directions of the Input and Both ports of a wiring, in board order.
fn handed_ports(alloc: Global, net: &Net) -> Result<Vec<Port>, NoMemory>
    ensures { IfOk result (λ ports. ports.items ≡ ports_handed net.now) }
{
    let nets = net.nets.items();
    let ports = nets
        .iter()
        .filter(|l| is_handed(l.port))
        .map(|l| l.port)
        .collect(alloc)?;
    Ok(ports)
}

/// The first steps of a trial for a board: so many.
pub(crate) fn front_of(alloc: Global, a: &Board, k: u32, count: u64) -> Result<Script, NoMemory>
    requires { count ≤ 64 }
    ensures script { IfOk result (λ script. inputs_of script ≡ trial_front k (ports_handed a.now.net) count) }
    ensures writable { IfOk result (IsWritableScript a.now.net) }
    ensures lawful { IfOk result (λ script. All (λ given. IsInputFor (equations_of a.now) given.levels) script.steps) }
{
    let ports = handed_ports(alloc, a.net())?;
    let steps = steps_of(alloc, ports.as_slice(), k, count)?;
    Ok(Script {
        steps: Items::new(steps),
    })
}

/// The first steps of a trial for ports of these directions: trials 0 and 1 count, the others draw.
fn steps_of(alloc: Global, ports: &[Port], k: u32, count: u64) -> Result<Vec<Inputs>, NoMemory>
    ensures { IfOk result (λ steps. map (λ given. given.levels) steps.items ≡ trial_front k ports.now count) }
{
    if k == 0 {
        return counted_steps(alloc, ports, false, count);
    }
    if k == 1 {
        return counted_steps(alloc, ports, true, count);
    }
    drawn_steps(alloc, ports, u64::from(k), count)
}

/// The inputs of the trial of this number for a board: 64 steps, in board order. They are lawful, and can be written as a
/// script. Only want of memory refuses them.
pub fn trial(alloc: Global, a: &Board, k: u32) -> Result<Script, NoMemory>
    requires number { k < 64 }
    ensures script { IfOk result (λ script. inputs_of script ≡ trial_of a.now.net k) }
    ensures writable { IfOk result (IsWritableScript a.now.net) }
    ensures lawful { IfOk result (λ script. All (λ given. IsInputFor (equations_of a.now) given.levels) script.steps) }
{
    front_of(alloc, a, k, TRIAL_STEPS)
}
