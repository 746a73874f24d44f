ghost use Rattle.std.specs.Prelude.{◌≡◌, IfOk};
ghost use Rattle.mig_base.specs.Given.{IsGiven};
ghost use Rattle.new_board.specs.Files.{files_of};
ghost use Rattle.built_files.specs.BoardFiles.{as_files};
ghost use Rattle.plan_text.specs.PlanText.{IsPlan};
ghost use Rattle.plans.specs.Breaches.{HasNoBreach};
ghost use Rattle.plans.specs.Fitting.{AreFitted};
ghost use Rattle.plan_build.specs.PlanBuilt.{IsBuilt};

use board::Board;
use built_files::{NewFiles, written_files};
use fit::Fitted;
use mig_base::NoMemory;
use new_wirings::new_net;
use std::alloc::Global;

/// The texts of the board that a plan without breach makes: the fuses of its chips, the plan, and the wiring. That board is accepted
/// and shows what the old one shows, and the two have a proving matching.
/// Fails for want of memory alone.
pub fn build(alloc: Global, board: &Board, fitted: &Fitted) -> Result<NewFiles, NoMemory>
    requires plan { IsPlan fitted.now.plan }
    requires free { HasNoBreach board.now fitted.now.plan }
    requires chips { AreFitted board.now fitted.now.plan fitted.now.chips }
    ensures files { IfOk result (λ files. as_files files ≡ files_of board.now.net fitted.now.plan fitted.now.chips) }
    ensures built { IfOk result (λ files. IsBuilt board.now fitted.now.plan fitted.now.chips) }
{
    // (by whose contract the old board is accepted)
    board.circuit();
    let chips = fitted.chips.items();
    let net = new_net(alloc, board.net(), chips)?;
    written_files(alloc, chips, &fitted.plan, &net)
}
