//! The wiring of new chips, and that it has a text where that of the old board has one.
#![tactic(auto)]

mod laws;
mod new_wires;

pub use laws::new_wirings_can_be_written;
pub use new_wires::new_net;
