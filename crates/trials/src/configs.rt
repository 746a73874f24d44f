ghost use Rattle.std.specs.Prelude.{◌≡◌, length, IfOk};
ghost use Rattle.board.specs.Joined.{equations_of};
ghost use Rattle.level_laws.specs.SameBehaviour.{SamePorts};
ghost use Rattle.settle.specs.Configs.{handed_count as count_of_handed};
ghost use Rattle.settle.specs.Made.{IsConfigFor, IsInputFor};
ghost use Rattle.trials.specs.Places.{handed_over};
ghost use Rattle.trials.specs.Stepping.{IsPairing, IsStarted, IsStepped};

use crate::pairing::Pairing;
use crate::places::hand_over;
use board::Board;
use mig_base::{Inputs, Items, Level, NoMemory};
use settle::{Config, handed_count, power_up, shows_into, step};
use std::alloc::Global;

/// Two boards between two steps, with room for what the second one is handed and for what both show.
#[derive(Drop)]
pub(crate) struct Configs {
    pub a: Config,
    pub b: Config,
    pub given: Inputs,
    pub left: Vec<Level>,
    pub right: Vec<Level>,
}

/// Room for the levels of all ports of a board.
fn shown_room(alloc: Global, board: &Board) -> Result<Vec<Level>, NoMemory>
    ensures { IfOk result (λ room. length room.items ≡ length (equations_of board.now).ports) }
{
    let ports = board.circuit().ports.items().len();
    Ok(vec![in alloc; Level::X; ports]?)
}

/// Room for what a board is handed.
fn given_room(alloc: Global, board: &Board) -> Result<Inputs, NoMemory>
    ensures { IfOk result (λ room. length room.levels ≡ count_of_handed (equations_of board.now)) }
{
    let levels = vec![in alloc; Level::X; handed_count(board)]?;
    Ok(Inputs {
        levels: Items::new(levels),
    })
}

/// Two boards at power-up. Only want of memory refuses it.
pub(crate) fn begin(alloc: Global, a: &Board, b: &Board) -> Result<Configs, NoMemory>
    ensures a { IfOk result (λ pair. IsStarted (equations_of a.now) pair.a) }
    ensures b { IfOk result (λ pair. IsStarted (equations_of b.now) pair.b) }
    ensures given { IfOk result (λ pair. length pair.given.levels ≡ count_of_handed (equations_of b.now)) }
    ensures left { IfOk result (λ pair. length pair.left.items ≡ length (equations_of a.now).ports) }
    ensures right { IfOk result (λ pair. length pair.right.items ≡ length (equations_of b.now).ports) }
{
    let config_a = power_up(alloc, a)?;
    let config_b = power_up(alloc, b)?;
    let given = given_room(alloc, b)?;
    let left = shown_room(alloc, a)?;
    let right = shown_room(alloc, b)?;
    Ok(Configs {
        a: config_a,
        b: config_b,
        given,
        left,
        right,
    })
}

/// One step of a board, and what it shows then.
fn advance(board: &Board, config: &mut Config, given: &Inputs, shown: &mut Vec<Level>)
    requires made { IsConfigFor (equations_of board.now) config.old }
    requires given { IsInputFor (equations_of board.now) given.now.levels }
    requires room { length shown.old.items ≡ length (equations_of board.now).ports }
    ensures stepped { IsStepped (equations_of board.now) given.now.levels config.old config.new shown.new.items }
    ensures room { length shown.new.items ≡ length (equations_of board.now).ports }
{
    step(board, config, given);
    shows_into(board, config, shown.as_mut_slice());
}

/// One step of two boards with the same ports to inputs of the first one, which are handed to the second one by name.
pub(crate) fn step_both(a: &Board, b: &Board, pairing: &Pairing, pair: &mut Configs, given: &Inputs)
    requires ports { SamePorts a.now.net b.now.net }
    requires pairing { IsPairing a.now b.now pairing.now }
    requires given { IsInputFor (equations_of a.now) given.now.levels }
    requires made_a { IsConfigFor (equations_of a.now) pair.old.a }
    requires made_b { IsConfigFor (equations_of b.now) pair.old.b }
    requires room { length pair.old.given.levels ≡ count_of_handed (equations_of b.now) }
    requires left { length pair.old.left.items ≡ length (equations_of a.now).ports }
    requires right { length pair.old.right.items ≡ length (equations_of b.now).ports }
    ensures a { IsStepped (equations_of a.now) given.now.levels pair.old.a pair.new.a pair.new.left.items }
    ensures b { IsStepped (equations_of b.now) (handed_over a.now.net b.now.net given.now.levels) pair.old.b pair.new.b pair.new.right.items }
    ensures room { length pair.new.given.levels ≡ count_of_handed (equations_of b.now) }
    ensures left { length pair.new.left.items ≡ length (equations_of a.now).ports }
    ensures right { length pair.new.right.items ≡ length (equations_of b.now).ports }
{
    hand_over(
        pairing.inputs.items(),
        given.levels.items(),
        &mut pair.given.levels,
    );
    advance(a, &mut pair.a, given, &mut pair.left);
    advance(b, &mut pair.b, &pair.given, &mut pair.right);
}
