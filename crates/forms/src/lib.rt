//! The forms of the parts of a board's units on new chips: the old products, or a cover of the part with absorbed nets replaced.
#![tactic(auto)]

mod absorbing;
mod attempts;
mod controls;
mod covers;
mod demands;
mod logic;
mod old;
mod rooms;

pub use absorbing::Absorbed;
pub use controls::{Control, control_of};
pub use demands::demand;
pub use logic::{Form, form_of};
pub use old::{Products, is_registered, old_products};
pub use rooms::{Room, room_on};
