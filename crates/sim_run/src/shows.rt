ghost use Rattle.std.specs.Prelude.{◌≡◌, true, length, IfOk};
ghost use Rattle.board.specs.Joined.{equations_of};
ghost use Rattle.level_laws.specs.Runs.{shown_levels};
ghost use Rattle.settle.specs.Made.{IsConfigFor};

use board::Board;
use mig_base::{Items, Level, NoMemory};
use settle::{Config, shows_into};
use std::alloc::Global;

/// What a board shows after a step: the level of every port, in board order.
#[derive(Drop)]
pub struct Shown {
    pub levels: Items<Level>,
}

/// What a board of so many ports shows after a step. Only want of memory refuses it.
pub(crate) fn shown_of(
    alloc: Global,
    b: &Board,
    config: &Config,
    ports: usize,
) -> Result<Shown, NoMemory>
    requires config { IsConfigFor (equations_of b.now) config.now }
    requires stepped { config.now.stepped ≡ true }
    requires ports { ports ≡ length (equations_of b.now).ports }
    ensures shown { IfOk result (λ shown. shown.levels ≡ shown_levels (equations_of b.now) config.now.levels) }
{
    let mut levels = vec![in alloc; Level::X; ports]?;
    shows_into(b, config, levels.as_mut_slice());
    Ok(Shown {
        levels: Items::new(levels),
    })
}
