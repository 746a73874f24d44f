ghost use Rattle.std.specs.Prelude.{◌≡◌, ◌++◌, None, Some, length, IfOk, MatchResult, string_bytes};
ghost use Rattle.answers.specs.Reports.{ports_line, show_line};
ghost use Rattle.mig_base.specs.Accepted.{IsAccepted};
ghost use Rattle.board.specs.Joined.{equations_of};
ghost use Rattle.level_laws.specs.Settled.{IsSettled};
ghost use Rattle.level_laws.specs.Runs.{IsStep, power_up as stored_at_start, shown_levels};
ghost use Rattle.settle.specs.Configs.{last_of};
ghost use Rattle.settle.specs.Made.{IsConfigFor, IsInputFor};

use answers::{write_ports, write_show};
use board::Board;
use mig_base::{Inputs, Level, NoMemory};
use mig_io::PutError;
use settle::{Config, power_up, shows_into, step};
use std::alloc::Global;

/// A run on its way: the board between two steps, room for what it shows, and what of the report isn't sent yet.
#[derive(Drop)]
pub(crate) struct Progress {
    pub config: Config,
    pub levels: Vec<Level>,
    pub text: String,
}

/// A run at power-up, with the first line of its report.
pub(crate) fn begin(alloc: Global, board: &Board) -> Result<Progress, NoMemory>
    ensures accepted { IsAccepted (equations_of board.now) }
    ensures made { IfOk result (λ p. IsConfigFor (equations_of board.now) p.config) }
    ensures stored { IfOk result (λ p. p.config.stored ≡ stored_at_start (equations_of board.now)) }
    ensures last { IfOk result (λ p. last_of p.config ≡ None) }
    ensures places { IfOk result (λ p. length p.levels.items ≡ length (equations_of board.now).ports) }
    ensures text { IfOk result (λ p. string_bytes p.text ≡ ports_line board.now.net.nets) }
{
    let ports = board.circuit().ports.items().len();
    let config = power_up(alloc, board)?;
    let levels = vec![in alloc; Level::X; ports]?;
    let mut text = String::new(alloc);
    write_ports(&mut text, board.net().nets.items())?;
    Ok(Progress {
        config,
        levels,
        text,
    })
}

/// One step of the run, and the line of what the board shows then.
pub(crate) fn show_step(board: &Board, run: &mut Progress, inputs: &Inputs) -> Result<(), PutError>
    requires made { IsConfigFor (equations_of board.now) run.old.config }
    requires places { length run.old.levels.items ≡ length (equations_of board.now).ports }
    requires inputs { IsInputFor (equations_of board.now) inputs.now.levels }
    ensures made { IsConfigFor (equations_of board.now) run.new.config }
    ensures places { length run.new.levels.items ≡ length (equations_of board.now).ports }
    ensures step { IsStep (equations_of board.now) run.old.config.stored (last_of run.old.config) inputs.now.levels run.new.config.stored }
    ensures last { last_of run.new.config ≡ Some inputs.now.levels }
    ensures settled { IsSettled (equations_of board.now) run.new.config.stored inputs.now.levels run.new.config.levels }
    ensures text { MatchResult result
        (λ _. string_bytes run.new.text ≡ string_bytes run.old.text ++ show_line (shown_levels (equations_of board.now) run.new.config.levels))
        (λ e. e ≡ PutError.Memory) }
{
    step(board, &mut run.config, inputs);
    shows_into(board, &run.config, run.levels.as_mut_slice());
    match write_show(&mut run.text, run.levels.as_slice()) {
        Ok(()) => Ok(()),
        Err(_) => Err(PutError::Memory),
    }
}
