//! The pins of a new chip: the net that each one stands on, and the input pins of the variables that its rows need.
#![tactic(auto)]

ghost use Rattle.board.specs.Joined.{Joined};
ghost use Rattle.new_board.specs.NewChip.{NewChip};
ghost use Rattle.avail.specs.declared.needs.ChipNeed.{ChipNeed as Need};
ghost use Rattle.avail.specs.Needs.{HasNeed, IsOfChip};

mod chip_nets;
mod needed;
mod needed_inputs;
mod needs;
mod old_board;
mod planned;
mod taking;
mod variables;

pub use chip_nets::{ChipNets, enable_net, pin_net, pin_reads, product_enables};
pub use needed::needed_variables;
pub use needed_inputs::inputs;
pub use needs::{AvailError, ChipNeed, PinReads, PinUnit, VarPin};
pub use old_board::Old;
pub use planned::{PlannedChip, no_rows, unit_register};
pub use taking::{Taken, first_unserved, pins_for};
pub use variables::{same_bool, same_read};

/// What `inputs` says of a need is what is said of each new chip that has it: its input pins, the first needed variable
/// that no column reads, and the pins whose columns read the others.
pub fn needs_are_of_chips()
    ensures { (b : Joined) (need : Need) (chip : NewChip) → HasNeed b need chip → IsOfChip b need chip }
{}
