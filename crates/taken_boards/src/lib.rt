//! Which boards are migrated so far: PAL16 chips without pulls, whose registers have one clock and in which no combinational
//! cell reads another one.
#![tactic(auto)]

mod circuits;
mod wiring;

pub use circuits::is_taken_form;
pub use wiring::is_taken_wiring;
